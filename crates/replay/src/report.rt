// What is printed: the first record that differs, a line for each entry and each difference, and whether all agree. A name has 26 columns.
use crate::labels;
use std::io;

pub(crate) fn first_differing(rt: &impl Print, record: u64, at: usize, kind: u8) -> io::Result<()> {
    let name = labels::name(usize::from(kind));
    println!(rt; "record {record} at byte {at} differs: {name:26}")
}

pub(crate) fn lines(rt: &impl Print, counts: &[u64; 54]) -> io::Result<()> {
    for (name, count) in labels::NAMES.iter().zip(&counts[1..]) {
        println!(rt; "{name:26} {count}")?;
    }
    Ok(())
}

pub(crate) fn damaged(rt: &impl Print, at: usize) -> io::Result<()> {
    println!(rt; "damaged in the record at byte {at}")
}

pub(crate) fn differing(rt: &impl Print, asked: u64, differ: u64) -> io::Result<()> {
    println!(rt; "{differ} of {asked} records differ")
}

pub(crate) fn agreeing(rt: &impl Print, asked: u64, marked: u64) -> io::Result<()> {
    println!(rt; "{asked} records agree, {marked} of them marked")
}
