//! The triangles of all pieces by their numbers.

use crate::parts::Parts;
use lpis_points::Triangle;
use std::alloc::{AllocError, Global};

/// The triangles of all pieces, numbered from 0, and the index of the piece of each.
#[derive(Drop)]
pub(crate) struct Numbered<'a> {
    pub(crate) triangles: &'a [Triangle],
    pub(crate) owners: Vec<u32>,
    /// The number of the first triangle of each piece.
    pub(crate) firsts: Vec<u32>,
}

impl<'a> Numbered<'a> {
    pub(crate) fn of(alloc: Global, parts: &'a Parts) -> Result<Numbered<'a>, AllocError> {
        let mut owners = Vec::with_capacity(alloc, parts.list.len())?;
        let mut firsts = Vec::with_capacity(alloc, parts.pieces.len())?;
        for (index, counts) in parts.pieces.iter().enumerate() {
            let owner = u32::try_from(index).unwrap_or(u32::MAX);
            firsts.push(u32::try_from(owners.len()).unwrap_or(u32::MAX))?;
            for _ in 0..counts.triangles {
                owners.push(owner)?;
            }
        }
        Ok(Numbered {
            triangles: &parts.list,
            owners,
            firsts,
        })
    }

    pub(crate) fn triangle(&self, number: u32) -> Option<&Triangle> {
        self.triangles.get(number as usize)
    }

    /// Two triangles, behind the indices of their pieces.
    pub(crate) fn pair(&self, i: u32, j: u32) -> Option<((usize, usize), &Triangle, &Triangle)> {
        let first = *self.owners.get(i as usize)?;
        let second = *self.owners.get(j as usize)?;
        let pieces = (first as usize, second as usize);
        Some((pieces, self.triangle(i)?, self.triangle(j)?))
    }
}
