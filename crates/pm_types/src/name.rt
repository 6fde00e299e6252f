ghost use Rattle.std.specs.Prelude.{◌≡◌, ◌==◌, OnOk, IfOk, IfErr, not, position};
ghost use Rattle.std.proofs.Common.{rules};
ghost use Rattle.std.specs.Cmp.{partial_order_from_own_ties};
ghost use Rattle.std.specs.Cmp.Rules.{comparing};
ghost use Rattle.std.specs.Cmp.Lexicographic.{slice_cmp, pointwise};
ghost use Rattle.std.specs.Ordering.{nat_cmp, as_partial_cmp};
ghost use Rattle.pm_types.specs.Names.{is_name_byte, IsName};
ghost use Rattle.pm_types.specs.NameFaults.{IsFirstFault};

use crate::{NAME_BYTES, NoMemory};
use std::alloc::Global;
use std::cmp::Ordering;
use std::marker::Model;

/// The name of a root: 1 to 64 bytes, each one of `a-z 0-9 . - _`.
#[derive(Debug, Drop)]
pub struct Name {
    bytes: Vec<u8>,
}

impl Model for Name {
    ghost use Rattle.std.specs.Prelude.{List, ℕ};
    ghost use Rattle.pm_types.specs.Names.{IsName};

    ghost Value = { List ℕ };

    ghost view = { λ name. name.bytes.items };

    ghost invariant = { λ name. IsName name.bytes.items };
}

/// Why bytes are no name. The first that applies is the one that is answered.
#[derive(Clone, Copy, Debug, PartialEq, Eq)]
pub enum NameFault {
    /// There is no byte.
    Empty,
    /// There are this many bytes, more than 64.
    TooLong(u64),
    /// The byte at this place, counted from 0, is the first that no name has.
    BadByte(u64),
    /// The bytes are a name, and memory ran out.
    Memory(NoMemory),
}

fn is_name_byte(byte: u8) -> bool
    ensures { result ≡ is_name_byte byte }
{
    matches!(byte, b'a'..=b'z' | b'0'..=b'9' | b'.' | b'-' | b'_')
}

impl PartialEq for Name {
    ghost eq = { pointwise ◌==◌ };

    ghost laws = { Prim.search (comparing, rules) };

    fn eq(&self, other: &Name) -> bool {
        self.bytes.as_slice() == other.bytes.as_slice()
    }
}

impl Eq for Name {
    ghost laws = { Prim.search (comparing, rules) };
}

/// Names are ordered by their bytes.
impl Ord for Name {
    ghost cmp = { slice_cmp nat_cmp };

    ghost total = { Prim.search (comparing, rules) };

    ghost matches_partial_cmp = { Prim.search (comparing, rules) };

    ghost matches_eq = { Prim.search (comparing, rules) };

    fn cmp(&self, other: &Name) -> Ordering {
        self.bytes.as_slice().cmp(&other.bytes.as_slice())
    }
}

impl PartialOrd for Name {
    ghost partial_cmp = { as_partial_cmp (slice_cmp nat_cmp) };

    ghost laws = { partial_order_from_own_ties (Prim.search (comparing, rules)) (Prim.search (comparing, rules)) };

    fn partial_cmp(&self, other: &Name) -> Option<Ordering> {
        Some(self.cmp(other))
    }
}

// The place of the first byte that no name has.
fn bad_byte(bytes: &[u8]) -> Option<usize>
    ensures { result ≡ position (λ b. not (is_name_byte b)) bytes.now }
{
    bytes.iter().position(|byte| !is_name_byte(*byte))
}

// The first fault of bytes that are no name.
#[tactic(auto, using(crate::proofs::NameLemmas::name_from_bytes))]
fn check(bytes: &[u8]) -> Result<(), NameFault>
    ensures ok { OnOk result (IsName bytes.now) }
    ensures fault { IfErr result (λ fault. IsFirstFault fault bytes.now) }
{
    if bytes.is_empty() {
        return Err(NameFault::Empty);
    }
    if bytes.len() > NAME_BYTES {
        return Err(NameFault::TooLong(bytes.len() as u64));
    }
    match bad_byte(bytes) {
        Some(place) => Err(NameFault::BadByte(place as u64)),
        None => Ok(()),
    }
}

impl Name {
    /// Reads a name. The bytes are a name exactly where the answer is neither `Empty`, `TooLong`
    /// nor `BadByte`.
    pub fn read(alloc: Global, bytes: &[u8]) -> Result<Name, NameFault>
        ensures same { IfOk result (λ name. name ≡ bytes.now) }
        ensures named { IfOk result IsName }
        ensures fault { IfErr result (λ fault. IsFirstFault fault bytes.now) }
    {
        check(bytes)?;
        match bytes.to_vec(alloc) {
            Ok(bytes) => Ok(Name { bytes }),
            Err(refused) => Err(NameFault::Memory(NoMemory::from(refused))),
        }
    }

    /// The bytes of the name, lent.
    pub fn as_slice(&self) -> &[u8]
        ensures bytes { result.now ≡ self.now }
        ensures named { IsName self.now }
    {
        self.bytes.as_slice()
    }

    /// The same name again.
    pub fn copy(&self, alloc: Global) -> Result<Name, NoMemory>
        ensures { IfOk result (λ copied. copied ≡ self.now) }
    {
        Ok(Name {
            bytes: self.bytes.as_slice().to_vec(alloc)?,
        })
    }
}
