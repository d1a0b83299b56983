//! Values edited under formats. The records are worked by hand.

use format_edit::{EditFault, Format, edit};
use meaning::ending::Value;
use std::alloc::{AllocError, Global};
use std::process::Abort;
use std::test::*;

/// The records of values under a format.
fn edited(
    rt: &impl Abort,
    alloc: Global,
    text: &str,
    values: &[Value],
) -> Result<Vec<u8>, EditFault> {
    let format = Format::read(alloc, text.as_bytes()).expect(rt, "a format");
    edit(alloc, &format, values)
}

/// The records of so many values of 7 in fields of 9,999 characters, one to a record.
fn widest(rt: &impl Abort, alloc: Global, count: usize) -> Result<Vec<u8>, EditFault> {
    let values = vec![in alloc; Value::Int(7); count].expect(rt, "memory");
    edited(rt, alloc, "(I9999)", &values)
}

/// The byte at a place of such records, each of which has 10,000: 9,998 blanks, 7, and the line
/// feed.
fn byte_at(place: usize) -> u8 {
    match place % 10_000 {
        9_999 => b'\n',
        9_998 => b'7',
        _ => b' ',
    }
}

/// 104 records of 10,000 bytes fit into 1,048,576.
#[test]
fn longest_records(rt: HostRuntime) {
    let records = widest(&rt, rt.alloc(), 104).expect(&rt, "records");
    assert!(rt; records.len() == 1_040_000);
    for (place, &byte) in records.iter().enumerate() {
        assert!(rt; byte == byte_at(place), "{place}");
    }
}

/// How many records are too many.
const TOO_MANY: &[usize] = &[105, 120];

#[test]
fn too_many_bytes(rt: HostRuntime) {
    for &count in TOO_MANY {
        match widest(&rt, rt.alloc(), count) {
            Ok(_) => panic!(rt; "{count} records"),
            Err(fault) => assert!(rt; fault == EditFault::F8, "{count}"),
        }
    }
}

/// A slash ends the record, and a colon behind the last value ends the editing, in an empty record.
#[test]
fn empty_record_at_the_end(rt: HostRuntime) {
    let format = "(L3,2X,'A'/I2.2,:,'END')";
    let records = edited(&rt, rt.alloc(), format, &[Value::Bool(true)]).expect(&rt, "records");
    assert!(rt; records.as_slice() == b"  T  A\n\n".as_slice());
}
