// A mask by the names of its roots or chord types: `all`, `none`, `C,F,G`, `all but F#,G`.
use crate::Kind;
use std::alloc::{AllocError, Global};

// The bit of name k.
fn bit(k: u8) -> usize {
    if 39 < k {
        return 0;
    }
    1 << k
}

// The mask that has the bits of all names of a kind.
fn all_of(kind: Kind) -> usize {
    bit(kind.count()).saturating_sub(1)
}

// A name without the space that a report has before it.
fn bare<'a>(name: &'a [u8]) -> &'a [u8] {
    name.strip_prefix(b" ").unwrap_or(name)
}

// The mask of the names of a list; None where one of them is no name.
fn mask_named(alloc: Global, kind: Kind, list: &[u8]) -> Result<Option<usize>, AllocError> {
    let mut mask: usize = 0;
    for name in list.split(|b| *b == b',') {
        let Some(k) = kind.value_of(alloc, bare(name))? else {
            return Ok(None);
        };
        if kind.count() <= k {
            return Ok(None);
        }
        mask |= bit(k);
    }
    Ok(Some(mask))
}

// The mask that a text stands for, of roots or of chord types.
fn mask_of(alloc: Global, kind: Kind, given: &[u8]) -> Result<Option<usize>, AllocError> {
    match given {
        b"all" => Ok(Some(all_of(kind))),
        b"none" => Ok(Some(0)),
        _ => match given.strip_prefix(b"all but ") {
            Some(names) => Ok(mask_named(alloc, kind, names)?.map(|left_out| all_of(
                kind,
            ).saturating_sub(left_out))),
            None => mask_named(alloc, kind, given),
        },
    }
}

pub fn roots(alloc: Global, given: &[u8]) -> Result<Option<usize>, AllocError> {
    mask_of(alloc, Kind::Root, given)
}

pub fn chords(alloc: Global, given: &[u8]) -> Result<Option<usize>, AllocError> {
    mask_of(alloc, Kind::Chord, given)
}
