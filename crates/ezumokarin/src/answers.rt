// Answers as structs of numbers.
ghost use Rattle.std.specs.Prelude.{◌≡◌};
ghost use Rattle.ezumokarin.specs.Changes.{plain_part};
ghost use Rattle.ezumokarin.specs.Compact.{plain_compacted};
ghost use Rattle.ezumokarin.specs.Files.{plain_file};
ghost use Rattle.ezumokarin.specs.Names.{plain_object, plain_chunk};
ghost use Rattle.ezumokarin.specs.Plain.{plain_answer};
ghost use Rattle.ezumokarin.specs.Seeks.{no_segment, a_segment, plain_sought};

use crate::{Chunk, Compact, Filed, Found, Object, Part, Plain};
use compaction::Compacted;
use joined::ListRefusal;
use keys::ChunkKey;
use names::ObjectName;
use outcomes::Refusal;
use slices::Record;

impl From<Result<usize, Refusal>> for Plain {
    ghost from_gives = { λ r p. p ≡ plain_answer r };

    fn from(r: Result<usize, Refusal>) -> Plain {
        match r {
            Ok(n) => Plain {
                refusal: 0,
                place: 0,
                count: n as u64,
            },
            Err(r) => Plain {
                refusal: r.number() as u64,
                place: r.place() as u64,
                count: 0,
            },
        }
    }
}

impl From<Result<usize, ListRefusal>> for Filed {
    ghost from_gives = { λ r p. p ≡ plain_file r };

    fn from(r: Result<usize, ListRefusal>) -> Filed {
        match r {
            Ok(n) => Filed {
                refusal: 0,
                place: 0,
                index: 0,
                count: n as u64,
            },
            Err(r) => Filed {
                refusal: r.number() as u64,
                place: r.place() as u64,
                index: r.index(),
                count: 0,
            },
        }
    }
}

// An object name's answer, with the length of its volume name.
pub(crate) fn of_object(o: Result<ObjectName, Refusal>, volume: u64) -> Object
    ensures { result ≡ plain_object o volume }
{
    match o {
        Ok(o) => Object {
            refusal: 0,
            place: 0,
            id: o.id,
            block: o.block,
            length: o.length,
            volume,
        },
        Err(r) => Object {
            refusal: r.number() as u64,
            place: r.place() as u64,
            id: 0,
            block: 0,
            length: 0,
            volume: 0,
        },
    }
}

impl From<Result<ChunkKey, Refusal>> for Chunk {
    ghost from_gives = { λ k p. p ≡ plain_chunk k };

    fn from(k: Result<ChunkKey, Refusal>) -> Chunk {
        match k {
            Ok(k) => Chunk {
                refusal: 0,
                place: 0,
                inode: k.inode,
                index: k.index,
            },
            Err(r) => Chunk {
                refusal: r.number() as u64,
                place: r.place() as u64,
                inode: 0,
                index: 0,
            },
        }
    }
}

impl From<Result<Compacted, Refusal>> for Compact {
    ghost from_gives = { λ c p. p ≡ plain_compacted c };

    fn from(c: Result<Compacted, Refusal>) -> Compact {
        match c {
            Ok(c) => Compact {
                refusal: 0,
                place: 0,
                plan: c.plan as u64,
                list: c.list as u64,
            },
            Err(r) => Compact {
                refusal: r.number() as u64,
                place: r.place() as u64,
                plan: 0,
                list: 0,
            },
        }
    }
}

// No segment, with a refusal's number and place or with zeros.
fn no_segment(refusal: u64, place: u64) -> Found
    ensures { result ≡ no_segment refusal place }
{
    Found {
        refusal,
        place,
        found: 0,
        segment: 0,
        pos: 0,
        id: 0,
        size: 0,
        off: 0,
        len: 0,
    }
}

// The segment with the given number.
fn a_segment(number: u64, s: Record) -> Found
    ensures { result ≡ a_segment number s }
{
    Found {
        refusal: 0,
        place: 0,
        found: 1,
        segment: number,
        pos: s.pos as u64,
        id: s.id,
        size: s.size as u64,
        off: s.off as u64,
        len: s.len as u64,
    }
}

impl From<Result<Option<seeking::Found>, Refusal>> for Found {
    ghost from_gives = { λ s p. p ≡ plain_sought s };

    fn from(s: Result<Option<seeking::Found>, Refusal>) -> Found {
        match s {
            Ok(None) => no_segment(0, 0),
            Ok(Some(f)) => a_segment(f.number as u64, f.segment),
            Err(r) => no_segment(r.number() as u64, r.place() as u64),
        }
    }
}

// Whether a list was rewritten, with the place of the part and its length.
pub(crate) fn of_rewritten(w: Result<bool, Refusal>, offset: u64, length: u64) -> Part
    ensures { result ≡ plain_part w offset length }
{
    match w {
        Ok(rewritten) => Part {
            refusal: 0,
            place: 0,
            rewritten: rewritten as u64,
            offset,
            length,
        },
        Err(r) => Part {
            refusal: r.number() as u64,
            place: r.place() as u64,
            rewritten: 0,
            offset: 0,
            length: 0,
        },
    }
}
