//! How the connections of an installation are cut, and where they break.
ghost use Rattle.std.specs.Prelude.{◌≤◌, All, IfOk};

use std::alloc::{AllocError, Global};

/// How many bytes pass at once, in turn, and after how many bytes each connection breaks.
#[derive(Drop)]
pub struct Cutting {
    pub sizes: Vec<u32>,
    pub breaks: Vec<Option<u64>>,
}

impl Cutting {
    /// Nothing is cut, and nothing breaks.
    pub fn new(alloc: Global) -> Cutting {
        Cutting {
            sizes: Vec::new(alloc),
            breaks: Vec::new(alloc),
        }
    }

    /// The sizes and the breaks for one installation; nothing is cut after it. A size of 0 counts as 1.
    pub fn take(&mut self, alloc: Global) -> Result<(Vec<u32>, Vec<Option<u64>>), AllocError>
        ensures { IfOk result (λ cuts. All (λ size. 1 ≤ size) cuts.0.items) }
    {
        let sizes = bounds(alloc, self.sizes.as_slice())?;
        let mut breaks = Vec::new(alloc);
        breaks.extend_from_slice(self.breaks.as_slice())?;
        self.sizes.clear();
        self.breaks.clear();
        Ok((sizes, breaks))
    }
}

/// The sizes, each at least 1.
fn bounds(alloc: Global, sizes: &[u32]) -> Result<Vec<u32>, AllocError>
    ensures { IfOk result (λ bounds. All (λ size. 1 ≤ size) bounds.items) }
{
    let mut bounds = Vec::new(alloc);
    for size in sizes {
        bounds.push((*size).max(1))?;
    }
    Ok(bounds)
}

/// The sizes that words tell.
pub fn sizes_of(alloc: Global, words: &[String]) -> anyhow::Result<Vec<u32>> {
    let mut sizes = Vec::new(alloc);
    for word in words {
        sizes.push(word.as_str().parse::<u32>()?)?;
    }
    Ok(sizes)
}

/// The breaks that words tell.
pub fn breaks_of(alloc: Global, words: &[String]) -> anyhow::Result<Vec<Option<u64>>> {
    let mut breaks = Vec::new(alloc);
    for word in words {
        let place = match word.as_str() {
            "-" => None,
            digits => Some(digits.parse::<u64>()?),
        };
        breaks.push(place)?;
    }
    Ok(breaks)
}
