//! The operations that words spell, as answers and documents spell them.
use cp_base::Items;
use cp_case_lines::{End, Words};
use cp_ops::{LatchOp, LongOp, MapOp, RefOp, SemOp};

/// A swap of longs: what is there, and what comes in its place.
fn long_swap(words: &mut Words) -> Result<LongOp, End> {
    let expected = words.value()?;
    let next = words.value()?;
    Ok(LongOp::Cas(expected, next))
}

/// An operation on a long.
pub fn long_op(words: &mut Words) -> Result<LongOp, End> {
    match words.word()? {
        "get" => Ok(LongOp::Get),
        "set" => Ok(LongOp::Set(words.value()?)),
        "getset" => Ok(LongOp::GetSet(words.value()?)),
        "add" => Ok(LongOp::Add(words.value()?)),
        "getadd" => Ok(LongOp::GetAdd(words.value()?)),
        "cas" => long_swap(words),
        _ => Err(End::BadLine),
    }
}

/// A swap of references: what is there, and what comes in its place.
fn ref_swap(words: &mut Words) -> Result<RefOp, End> {
    let expected = words.reference()?;
    let next = words.reference()?;
    Ok(RefOp::Cas(expected, next))
}

/// An operation on a reference.
pub fn ref_op(words: &mut Words) -> Result<RefOp, End> {
    match words.word()? {
        "get" => Ok(RefOp::Get),
        "set" => Ok(RefOp::Set(words.reference()?)),
        "getset" => Ok(RefOp::GetSet(words.reference()?)),
        "cas" => ref_swap(words),
        "contains" => Ok(RefOp::Contains(words.reference()?)),
        _ => Err(End::BadLine),
    }
}

/// A key and a value.
fn pair(words: &mut Words) -> Result<(Items<u8>, Items<u8>), End> {
    let key = words.bytes()?;
    let value = words.bytes()?;
    Ok((key, value))
}

/// A swap of values: their key, what is there, and what comes in its place.
fn map_swap(words: &mut Words) -> Result<MapOp, End> {
    let (key, expected) = pair(words)?;
    let next = words.bytes()?;
    Ok(MapOp::Cas(key, expected, next))
}

/// An operation on a map that sets the value of a key.
fn map_write(call: &str, words: &mut Words) -> Result<MapOp, End> {
    let (key, value) = pair(words)?;
    match call {
        "set" => Ok(MapOp::Set(key, value)),
        "put" => Ok(MapOp::Put(key, value)),
        "putifabsent" => Ok(MapOp::PutIfAbsent(key, value)),
        _ => Err(End::BadLine),
    }
}

/// An operation on a map.
pub fn map_op(words: &mut Words) -> Result<MapOp, End> {
    match words.word()? {
        "get" => Ok(MapOp::Get(words.bytes()?)),
        "remove" => Ok(MapOp::Remove(words.bytes()?)),
        "delete" => Ok(MapOp::Delete(words.bytes()?)),
        "cas" => map_swap(words),
        call => map_write(call, words),
    }
}

/// An operation on a latch.
pub fn latch_op(words: &mut Words) -> Result<LatchOp, End> {
    match words.word()? {
        "count" => Ok(LatchOp::Count),
        "round" => Ok(LatchOp::Round),
        "set" => Ok(LatchOp::Set(words.count()?)),
        "down" => Ok(LatchOp::Down(words.number()?)),
        "await" => Ok(LatchOp::Await(words.count()?)),
        _ => Err(End::BadLine),
    }
}

/// A session, and a number of permits.
fn permits(words: &mut Words) -> Result<(u64, u32), End> {
    let session = words.number()?;
    let permits = words.count()?;
    Ok((session, permits))
}

/// An operation on a semaphore that takes permits.
fn sem_take(words: &mut Words) -> Result<SemOp, End> {
    let (session, wanted) = permits(words)?;
    let wish = words.wish()?;
    Ok(SemOp::Acquire(session, wanted, wish))
}

/// An operation on a semaphore that names a session and permits.
fn sem_change(call: &str, words: &mut Words) -> Result<SemOp, End> {
    let (session, changed) = permits(words)?;
    match call {
        "release" => Ok(SemOp::Release(session, changed)),
        "increase" => Ok(SemOp::Increase(session, changed)),
        "reduce" => Ok(SemOp::Reduce(session, changed)),
        _ => Err(End::BadLine),
    }
}

/// An operation on a semaphore.
pub fn sem_op(words: &mut Words) -> Result<SemOp, End> {
    match words.word()? {
        "available" => Ok(SemOp::Available),
        "init" => Ok(SemOp::Init(words.count()?)),
        "acquire" => sem_take(words),
        "drain" => Ok(SemOp::Drain(words.number()?)),
        call => sem_change(call, words),
    }
}
