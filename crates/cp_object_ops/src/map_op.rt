//! What may be done to a map.
ghost use Rattle.cp_object_ops.specs.Laws.{map_op_lawful};
ghost use Rattle.cp_object_ops.specs.MapOps.{map_op};

use cp_base::{Items, NoMemory, Text};
use cp_grammar::{Spelled, Stop, append_u8, take_u8};
use cp_op_values::{
    append_hex_text, append_key, append_key_and_value, append_key_and_values, append_value,
    take_key, take_value,
};
use std::alloc::Global;

/// What may be done to a map.
#[derive(Clone, Debug, PartialEq, Eq, Drop)]
pub enum MapOp {
    /// Gives the value of a key.
    Get(Items<u8>),
    /// Sets the value of a key.
    Set(Items<u8>, Items<u8>),
    /// Sets the value of a key, and gives the one before.
    Put(Items<u8>, Items<u8>),
    /// Takes a key away, and gives its value.
    Remove(Items<u8>),
    /// Takes a key away.
    Delete(Items<u8>),
    /// Sets the value of a key that has none, and gives the one before.
    PutIfAbsent(Items<u8>, Items<u8>),
    /// Sets the last where the value is the one before it, and tells whether it was.
    Cas(Items<u8>, Items<u8>, Items<u8>),
}

impl Spelled for MapOp {
    ghost grammar = { map_op };

    #[tactic(auto, unfolding(crate::specs::MapOps::map_op))]
    fn take<'a>(alloc: Global, bytes: &'a [u8]) -> Result<(MapOp, &'a [u8]), Stop> {
        let (tag, rest) = take_u8(bytes, 6)?;
        match tag {
            0 => {
                let (key, rest) = take_key(alloc, rest)?;
                Ok((MapOp::Get(key), rest))
            }
            1 => {
                let (key, rest) = take_key(alloc, rest)?;
                let (value, rest) = take_value(alloc, rest)?;
                Ok((MapOp::Set(key, value), rest))
            }
            2 => {
                let (key, rest) = take_key(alloc, rest)?;
                let (value, rest) = take_value(alloc, rest)?;
                Ok((MapOp::Put(key, value), rest))
            }
            3 => {
                let (key, rest) = take_key(alloc, rest)?;
                Ok((MapOp::Remove(key), rest))
            }
            4 => {
                let (key, rest) = take_key(alloc, rest)?;
                Ok((MapOp::Delete(key), rest))
            }
            5 => {
                let (key, rest) = take_key(alloc, rest)?;
                let (value, rest) = take_value(alloc, rest)?;
                Ok((MapOp::PutIfAbsent(key, value), rest))
            }
            6 => {
                let (key, rest) = take_key(alloc, rest)?;
                let (old, rest) = take_value(alloc, rest)?;
                let (next, rest) = take_value(alloc, rest)?;
                Ok((MapOp::Cas(key, old, next), rest))
            }
            _ => Err(Stop::Left(rest.len())),
        }
    }

    #[tactic(auto, unfolding(crate::specs::MapOps::map_op))]
    fn append(&self, out: &mut Vec<u8>) -> Result<(), NoMemory> {
        match self {
            MapOp::Get(key) => {
                append_u8(0, out)?;
                append_key(key, out)?;
            }
            MapOp::Set(key, value) => {
                append_u8(1, out)?;
                append_key(key, out)?;
                append_value(value, out)?;
            }
            MapOp::Put(key, value) => {
                append_u8(2, out)?;
                append_key(key, out)?;
                append_value(value, out)?;
            }
            MapOp::Remove(key) => {
                append_u8(3, out)?;
                append_key(key, out)?;
            }
            MapOp::Delete(key) => {
                append_u8(4, out)?;
                append_key(key, out)?;
            }
            MapOp::PutIfAbsent(key, value) => {
                append_u8(5, out)?;
                append_key(key, out)?;
                append_value(value, out)?;
            }
            MapOp::Cas(key, old, next) => {
                append_u8(6, out)?;
                append_key(key, out)?;
                append_value(old, out)?;
                append_value(next, out)?;
            }
        }
        Ok(())
    }

    ghost lawful = { map_op_lawful };
}

impl Text for MapOp {
    ghost use Rattle.cp_object_ops.specs.MapOps.{map_op_text};

    ghost text = { map_op_text };

    fn append_text(&self, out: &mut Vec<u8>) -> Result<(), NoMemory> {
        match self {
            MapOp::Get(key) => {
                out.extend_from_slice(b"get ")?;
                append_hex_text(key, out)?;
            }
            MapOp::Set(key, value) => append_key_and_value(b"set ", key, value, out)?,
            MapOp::Put(key, value) => append_key_and_value(b"put ", key, value, out)?,
            MapOp::Remove(key) => {
                out.extend_from_slice(b"remove ")?;
                append_hex_text(key, out)?;
            }
            MapOp::Delete(key) => {
                out.extend_from_slice(b"delete ")?;
                append_hex_text(key, out)?;
            }
            MapOp::PutIfAbsent(key, value) => append_key_and_value(
                b"putifabsent ",
                key,
                value,
                out,
            )?,
            MapOp::Cas(key, old, next) => append_key_and_values(b"cas ", key, old, next, out)?,
        }
        Ok(())
    }
}
