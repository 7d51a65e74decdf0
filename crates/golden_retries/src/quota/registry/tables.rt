//! Tables by partition, of one caller and shared.
use anyhow::Result;
use retry_quota::{PartitionTable, StaticPartitionMap};
use smithy_types::OutOfMemory;
use std::alloc::Global;
use std::sync::Wait;

/// A call on a table.
#[derive(Clone, Copy, Debug)]
enum Call {
    /// Looks a key up.
    Get(char),
    /// Looks a key up, and gives a new one this value.
    GetOrInit(char, char),
}

const CALLS: &[Call] = &[
    Call::Get('A'),
    Call::GetOrInit('A', 'A'),
    Call::GetOrInit('A', 'B'),
    Call::GetOrInit('B', 'B'),
    Call::Get('A'),
];

fn in_table(
    alloc: Global,
    table: &mut PartitionTable<char, char>,
    call: Call,
) -> Result<Option<char>, OutOfMemory> {
    match call {
        Call::Get(key) => table.get(alloc, &key),
        Call::GetOrInit(key, value) => Ok(Some(table.get_or_init(alloc, key, || value)?)),
    }
}

fn in_map<R: Wait>(
    rt: &R,
    alloc: Global,
    map: &StaticPartitionMap<char, char>,
    call: Call,
) -> Result<Option<char>, OutOfMemory> {
    match call {
        Call::Get(key) => map.get(rt, alloc, key),
        Call::GetOrInit(key, value) => Ok(Some(map.get_or_init(rt, alloc, key, || value)?)),
    }
}

/// Prints what calls on a table answer.
pub fn print(rt: &HostRuntime) -> Result<()> {
    println!(rt; "a key keeps its first value in a table")?;
    let mut table = PartitionTable::default();
    print_calls(rt, &mut table)
}

fn print_calls(rt: &HostRuntime, table: &mut PartitionTable<char, char>) -> Result<()> {
    for call in CALLS {
        let answer = in_table(rt.alloc(), table, *call)?;
        println!(rt; "  {call:?}: {answer:?}")?;
    }
    Ok(())
}

/// Prints what the same calls on a shared table answer, which wait for it by this handle.
pub fn print_shared<R: Wait>(rt: &HostRuntime, waiting: &R) -> Result<()> {
    println!(rt; "a key keeps its first value in a shared table")?;
    let map = StaticPartitionMap::default();
    print_shared_calls(rt, waiting, &map)
}

fn print_shared_calls<R: Wait>(
    rt: &HostRuntime,
    waiting: &R,
    map: &StaticPartitionMap<char, char>,
) -> Result<()> {
    for call in CALLS {
        let answer = in_map(waiting, rt.alloc(), map, *call)?;
        println!(rt; "  {call:?}: {answer:?}")?;
    }
    let value = map.get_or_init_default(waiting, rt.alloc(), 'C')?;
    println!(rt; "  GetOrInitDefault('C'): {value:?}")?;
    Ok(())
}
