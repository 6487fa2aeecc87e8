//! What a bounded cache keeps and finds.
ghost use Rattle.std.specs.Prelude.{ℕ, ℤ, List, length, nat_lt};

use pg_cache::{Admits, Cache};
use std::test::Fail;

/// Answers inputs with more numbers than this.
#[derive(Drop)]
struct Above(usize);

impl Admits for Above {
    ghost Meaning = { ℕ };

    ghost meaning = { λ v. v.0 };

    ghost test = { λ (n : ℕ) (input : List ℤ). nat_lt n (length input) };

    fn admits(&mut self, input: &[i64]) -> bool {
        self.0 < input.len()
    }
}

#[test]
fn youngest_are_kept(rt: HostRuntime) -> Result<(), Fail> {
    let mut cache = Cache::new(rt.alloc(), 2)?;
    assert_eq!(rt; cache.find(&[1]), None);
    assert!(rt; cache.value(0).is_none());
    assert_eq!(rt; cache.insert(Above(2)), 0);
    assert_eq!(rt; cache.insert(Above(0)), 1);
    // the least number of one that answers, and not the youngest
    assert_eq!(rt; cache.find(&[1]), Some(1));
    assert_eq!(rt; cache.find(&[1, 2, 3]), Some(0));
    assert_eq!(rt; cache.find(&[]), None);
    // the third takes the place of the oldest, whose number isn't used again
    assert_eq!(rt; cache.insert(Above(1)), 2);
    assert!(rt; cache.value(0).is_none());
    assert!(rt; cache.value(3).is_none());
    assert_eq!(rt; cache.find(&[1, 2, 3]), Some(1));
    assert_eq!(rt; cache.insert(Above(1)), 3);
    assert_eq!(rt; cache.find(&[1]), None);
    assert_eq!(rt; cache.find(&[1, 2]), Some(2));
    Ok(())
}
