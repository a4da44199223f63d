//! Names of objects and groups.
ghost use Rattle.std.specs.Prelude.{◌≡◌, ◌<◌, Some, not, position, refl, bytes_eq, IfOk, IfErr};
ghost use Rattle.std.specs.Ordering.{nat_cmp};
ghost use Rattle.std.specs.Cmp.{partial_equiv_from_equiv};
ghost use Rattle.std.specs.Cmp.Lexicographic.{slice_cmp, nat_list_eq_equiv, nat_list_cmp_total, texts_ties, texts_po};
ghost use Rattle.cp_base.specs.Names.{IsName, IsNameFault, is_name_byte, name_fault};

use crate::limits::MOST_NAME;
use std::alloc::{AllocError, Global};
use std::cmp::Ordering;
use std::marker::Model;
use thiserror::Error;

/// Why bytes are no name.
#[derive(Clone, Copy, Debug, PartialEq, Eq, Error)]
pub enum NameError {
    /// The place of the first byte that may not stand in a name; else 64, where there are more bytes than that; else
    /// 0, where there are none.
    #[error("not a name, at byte {0}")]
    BadName(usize),
    /// There was no memory.
    #[error("no memory")]
    NoMemory,
}

/// A name: 1 to 64 bytes of a-z A-Z 0-9 . _ -, which contracts see as the list of its bytes. Names are ordered as
/// their bytes are.
#[derive(Debug, Drop)]
pub struct Name {
    bytes: Vec<u8>,
}

impl Model for Name {
    ghost use Rattle.std.specs.Prelude.{ℕ, List, ◌≡◌, None};
    ghost use Rattle.cp_base.specs.Names.{name_fault};

    ghost Value = { List ℕ };

    ghost view = { λ name. name.bytes.items };

    ghost invariant = { λ name. name_fault name.bytes.items ≡ None };
}

fn is_name_byte(byte: u8) -> bool
    ensures { result ≡ is_name_byte byte }
{
    matches!(byte, b'a'..=b'z' | b'A'..=b'Z' | b'0'..=b'9' | b'.' | b'_' | b'-')
}

fn first_foreign_byte(bytes: &[u8]) -> Option<usize>
    ensures { result ≡ position (λ b. not (is_name_byte b)) bytes.now }
{
    bytes.iter().position(|byte| !is_name_byte(*byte))
}

fn name_fault(bytes: &[u8]) -> Option<usize>
    ensures { result ≡ name_fault bytes.now }
{
    if let Some(place) = first_foreign_byte(bytes) {
        return Some(place);
    }
    if bytes.len() > MOST_NAME as usize {
        return Some(MOST_NAME as usize);
    }
    if bytes.is_empty() {
        return Some(0);
    }
    None
}

impl Name {
    /// The name that these bytes spell.
    #[tactic(auto, using(crate::proofs::NameLemmas::is_name, crate::proofs::NameLemmas::no_name))]
    pub fn read(alloc: Global, bytes: &[u8]) -> Result<Name, NameError>
        ensures name { IfOk result (λ name. IsName bytes.now × (name ≡ bytes.now)) }
        ensures fault { IfErr result (λ error. IsNameFault error bytes.now) }
    {
        if let Some(place) = name_fault(bytes) {
            return Err(NameError::BadName(place));
        }
        match Vec::from_slice(alloc, bytes) {
            Ok(bytes) => Ok(Name { bytes }),
            Err(_) => Err(NameError::NoMemory),
        }
    }

    /// The bytes of the name.
    #[tactic(auto, using(crate::proofs::NameLemmas::is_name, crate::proofs::NameLemmas::no_name))]
    pub fn as_bytes(&self) -> &[u8]
        ensures value { result.now ≡ self.now }
        ensures name { IsName self.now }
    {
        &self.bytes
    }
}

impl Clone for Name {
    ghost is_clone = { λ name copy. copy ≡ name };

    fn clone(&self) -> Result<Name, AllocError> {
        Ok(Name {
            bytes: self.bytes.clone()?,
        })
    }
}

impl PartialEq for Name {
    ghost eq = { λ a b. bytes_eq a b };

    ghost laws = { partial_equiv_from_equiv nat_list_eq_equiv };

    fn eq(&self, other: &Name) -> bool {
        self.as_bytes() == other.as_bytes()
    }
}

impl Eq for Name {
    ghost laws = { nat_list_eq_equiv };
}

impl PartialOrd for Name {
    ghost partial_cmp = { λ a b. Some (slice_cmp nat_cmp a b) };

    ghost laws = { texts_po };

    fn partial_cmp(&self, other: &Name) -> Option<Ordering> {
        Some(self.cmp(other))
    }
}

impl Ord for Name {
    ghost cmp = { λ a b. slice_cmp nat_cmp a b };

    ghost total = { nat_list_cmp_total };

    ghost matches_partial_cmp = { λ a b. refl };

    ghost matches_eq = { λ a b. texts_ties a b };

    fn cmp(&self, other: &Name) -> Ordering {
        self.as_bytes().cmp(other.as_bytes())
    }
}
