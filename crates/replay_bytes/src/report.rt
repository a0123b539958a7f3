// How many records of each kind came out right, and the first that did not.
use crate::Answer;
use crate::record::{Row, SIZE};
use crate::tag::{N_TAGS, NoTag, Tag};
use std::io;

// So many records, of which so many were wrong.
#[derive(Clone, Copy, Default)]
pub struct Count {
    pub records: u64,
    pub wrong: u64,
}

impl Count {
    fn one_more(self, right: bool) -> Count {
        Count {
            records: self.records.wrapping_add(1),
            wrong: self.wrong.wrapping_add(u64::from(!right)),
        }
    }
}

// The first wrong record: its number from 1 on, its tag, and the byte, or None where what no byte shows was not kept.
#[derive(Clone, Copy)]
pub struct First {
    pub record: u64,
    pub tag: Result<Tag, NoTag>,
    pub byte: Option<usize>,
}

#[derive(Clone, Copy, Default)]
pub struct Tally {
    pub all: Count,
    pub of_tag: [Count; N_TAGS],
    pub first: Option<First>,
}

impl Tally {
    pub fn records(self) -> u64 {
        self.all.records
    }

    // A record is right where no byte differs and all else was kept.
    pub fn counted(mut self, row: Row, a: Answer) -> Tally {
        let byte = row.difference(a.bytes);
        let right = a.kept && byte.is_none();
        self.all = self.all.one_more(right);
        let tag = row.tag();
        if let Ok(tag) = tag {
            let count = &mut self.of_tag[tag as usize];
            *count = count.one_more(right);
        }
        if !right && self.first.is_none() {
            self.first = Some(First {
                record: self.all.records,
                tag,
                byte,
            });
        }
        self
    }
}

fn print_line(rt: &impl Print, tag: Tag, count: Count) -> io::Result<()> {
    let Count { records, wrong } = count;
    if wrong == 0 {
        return println!(rt; "{tag} {records} ok");
    }
    println!(rt; "{tag} {records}, {wrong} differ")
}

// Where no byte differs, the byte is told as the one behind the record.
fn print_first(rt: &impl Print, first: First) -> io::Result<()> {
    let First { record, tag, byte } = first;
    let at = byte.unwrap_or(SIZE);
    match tag {
        Ok(tag) => println!(rt; "first: record {record}, {tag}, byte {at}"),
        Err(none) => println!(rt; "first: record {record}, {none}, byte {at}"),
    }
}

pub fn print(rt: &impl Print, t: Tally) -> io::Result<()> {
    for (tag, count) in Tag::ALL.into_iter().zip(t.of_tag) {
        print_line(rt, tag, count)?;
    }
    if let Some(first) = t.first {
        print_first(rt, first)?;
    }
    let Count { records, wrong } = t.all;
    println!(rt; "{records} records, {wrong} differ")
}
