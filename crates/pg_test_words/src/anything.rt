//! A rule that says nothing, and seats that know nothing.

use atomic_table::{Join, Play, Split, TableRule};

pub struct Anything;

impl TableRule<(), (), ()> for Anything {
    ghost use Rattle.pg_test_words.specs.Any.{Holds};

    ghost holds = { Holds };

    ghost first = { λ _. tt };
}

impl Play<(), ()> for Anything {
    ghost use Rattle.pg_test_words.specs.Any.{Tells};

    ghost then = { Tells };
}

impl Split<()> for Anything {
    ghost left = { λ v. v };

    ghost right = { λ v. v };
}

impl Join<()> for Anything {
    ghost both = { λ v _. v };

    ghost spent = { tt };
}
