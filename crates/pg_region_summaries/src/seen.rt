//! Accesses as the callers of a function see them.

ghost use Rattle.std.specs.Prelude.{◌≡◌, IfOk, option_map};
ghost use Rattle.pg_region_summaries.specs.Summaries.{seen_root, seen, if_few};

use crate::limits::SUMMARY_LIMIT;
use pg_region_accesses::{Rooted, Summary};
use pg_region_paths::{Root, RootPath};
use std::alloc::{AllocError, Global};

/// A root of a path within a function with so many parameters, as its callers see it.
fn seen_root(params: u32, root: Root) -> Option<Root>
    ensures { result ≡ seen_root params root }
{
    match root {
        Root::Register(r) => {
            if r < params {
                Some(Root::Param(r))
            } else {
                None
            }
        }
        _ => Some(root),
    }
}

/// The accesses of a function with so many parameters as its callers see them, if each has a root that they see.
fn seen(alloc: Global, params: u32, accesses: &[Rooted]) -> Result<Option<Vec<Rooted>>, AllocError>
    ensures { IfOk result (λ r. option_map (λ v. v.items) r ≡ seen params accesses.now) }
{
    let mut seen = Vec::new(alloc);
    for access in accesses {
        let Rooted {
            instr,
            writes,
            path,
        } = *access;
        let Some(root) = seen_root(params, path.root) else {
            return Ok(None);
        };
        let loads = path.loads;
        seen.push(Rooted {
            instr,
            writes,
            path: RootPath { root, loads },
        })?;
    }
    Ok(Some(seen))
}

/// The summary of a function with so many parameters and these accesses, if each has a root that its callers see and
/// they are few.
pub(crate) fn seen_by_callers(
    alloc: Global,
    params: u32,
    accesses: &[Rooted],
) -> Result<Option<Summary>, AllocError>
    ensures { IfOk result (λ s. option_map (λ s. s.accesses.items) s ≡ if_few (seen params accesses.now)) }
{
    match seen(alloc, params, accesses)? {
        Some(accesses) if accesses.len() <= SUMMARY_LIMIT => Ok(Some(Summary { accesses })),
        _ => Ok(None),
    }
}
