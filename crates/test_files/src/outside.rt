//! Files and printed texts, kept in memory and in a folder.

ghost use Rattle.std.specs.Prelude.{◌≡◌, ◌<◌, ◌⊎◌, ◌++◌, Some, OnOk, IsErrOf};
ghost use Rattle.eco_outside.specs.Store.{Rose, WhereKnown, content, put_file};
ghost use Rattle.eco_outside.specs.Sink.{append_piece};

use eco_outside::{
    Blame, FileStore, MemSink, MemStore, OutSink, Sink, SinkError, Store, StoreError,
    have_own_names,
};
use std::alloc::Global;
use std::test::Fail;

/// Writes two files, one behind the other, as a third.
fn join<S: Store>(
    store: &mut S,
    first: &str,
    second: &str,
    target: &str,
    most: u64,
) -> Result<(), StoreError>
    ensures joined { OnOk result (WhereKnown (S.view store.old).files (λ files. (S.view store.new).files ≡ put_file (S.view store.old).files target.now (content files first.now ++ content files second.now))) }
    ensures failed { IsErrOf result StoreError.Failed
        → (Rose (S.view store.old).read_faults (S.view store.new).read_faults
        × ((S.view store.new).files ≡ (S.view store.old).files)
        × (((S.view store.new).blamed ≡ Some (Blame.ReadFailed, first.now)) ⊎ ((S.view store.new).blamed ≡ Some (Blame.ReadFailed, second.now))))
        ⊎ (Rose (S.view store.old).write_faults (S.view store.new).write_faults
        × ((S.view store.new).blamed ≡ Some (Blame.WriteFailed, target.now))) }
    ensures too_long { IsErrOf result StoreError.TooLong → (most < (S.view store.new).taken) × ((S.view store.new).files ≡ (S.view store.old).files) }
{
    let mut bytes = store.read(first, most)?;
    let more = store.read(second, most)?;
    bytes.extend_from_slice(&more)?;
    store.write(target, &bytes)
}

/// Prints two pieces.
fn print_both<K: Sink>(sink: &mut K, first: &[u8], second: &[u8]) -> Result<(), SinkError>
    ensures printed { OnOk result ((K.view sink.new).written ≡ append_piece (append_piece (K.view sink.old).written first.now) second.now) }
    ensures failed { IsErrOf result SinkError.Failed → Rose (K.view sink.old).faults (K.view sink.new).faults }
{
    sink.put(first)?;
    sink.put(second)
}

/// Files in memory.
const FILES: [(&str, &[u8]); 2] = [("a", b"one "), ("b", b"two")];

/// The files, of a store whose third call fails, and where a write that fails leaves five bytes; None where they have one
/// name.
fn two_files(alloc: Global) -> Result<Option<MemStore>, StoreError> {
    let mut files = Vec::new(alloc);
    for (name, bytes) in &FILES {
        files.push((String::from_str(alloc, name)?, bytes.to_vec(alloc)?))?;
    }
    let failing = vec![in alloc; 2]?;
    Ok(if have_own_names(&files) {
        Some(MemStore::new(alloc, files, failing, 5))
    } else {
        None
    })
}

/// Files that are joined as a third, the most bytes of the first, the answer, and what the third then has.
const JOINS: [(&str, &str, &str, u64, Result<(), StoreError>, &[u8]); 4] = [
    ("a", "b", "c", 4, Err(StoreError::Failed), b"one t"),
    ("a", "b", "c", 4, Ok(()), b"one two"),
    ("c", "b", "a", 6, Err(StoreError::TooLong), b"one "),
    ("a", "d", "a", 4, Err(StoreError::Failed), b"one "),
];

/// How many of these go as they have to before one doesn't.
fn joined(store: &mut MemStore) -> usize {
    let mut count: usize = 0;
    for (first, second, target, most, answer, bytes) in &JOINS {
        if join(store, first, second, target, *most) != *answer
            || store.get(target) != Some(*bytes)
        {
            return count;
        }
        count = count.wrapping_add(1);
    }
    count
}

#[test]
fn files_in_memory_are_joined(rt: HostRuntime) -> Result<(), Fail> {
    let mut store = two_files(rt.alloc())?.ok_or("one name")?;
    let count = joined(&mut store);
    drop(store);
    assert_eq!(rt; count, JOINS.len());
    Ok(())
}

/// Whether two pieces are taken, and one and a byte of the next where the put behind it fails.
fn prints_five_bytes(sink: &mut MemSink) -> bool {
    print_both(sink, b"ab", b"cd") == Ok(())
        && print_both(sink, b"ef", b"gh") == Err(SinkError::Failed)
        && sink.written() == b"abcde".as_slice()
}

#[test]
fn pieces_are_printed_in_memory(rt: HostRuntime) -> Result<(), Fail> {
    let failing = vec![in rt.alloc(); 2]?;
    let mut sink = MemSink::new(rt.alloc(), failing, 1);
    assert!(rt; prints_five_bytes(&mut sink));
    Ok(())
}

/// Whether ten bytes are written and read back, but not where fewer are allowed.
fn keeps_ten_bytes<S: Store>(store: &mut S) -> Result<bool, StoreError> {
    store.write("kept", b"0123456789")?;
    Ok(
        store.read("kept", 10)?.as_slice() == b"0123456789".as_slice()
            && store.read("kept", 9).err() == Some(StoreError::TooLong),
    )
}

/// Whether a file that isn't there is no read one, and nothing is written into a folder that isn't there.
fn fails_elsewhere<S: Store>(store: &mut S) -> bool {
    store.read("missing", 9).err() == Some(StoreError::Failed)
        && store.write("missing/kept", b"0") == Err(StoreError::Failed)
}

fn keeps_no_bytes<S: Store>(store: &mut S) -> Result<bool, StoreError> {
    store.write("kept", b"")?;
    Ok(store.read("kept", 0)?.is_empty())
}

fn keeps_files<S: Store>(store: &mut S) -> Result<bool, StoreError> {
    Ok(keeps_ten_bytes(store)? && fails_elsewhere(store) && keeps_no_bytes(store)?)
}

#[test]
fn a_file_of_the_system_is_read_back(rt: HostRuntime) {
    let mut store = FileStore::new(rt.alloc(), &rt);
    assert_eq!(rt; keeps_files(&mut store), Ok(true));
}

#[test]
fn standard_output_takes_a_piece(rt: HostRuntime) {
    let mut sink = OutSink::new(&rt);
    assert_eq!(rt; sink.put(b"a piece\n"), Ok(()));
    assert_eq!(rt; sink.put(b""), Ok(()));
}
