//! The sample programs that are measured.

use pg_test_samples::Sample;

/// A sample program on an input.
#[derive(Clone, Copy)]
pub(crate) struct Measured {
    pub(crate) name: &'static str,
    pub(crate) sample: Sample,
    pub(crate) input: &'static [i64],
}

/// Short runs, of which the slice by passes is taken too.
pub(crate) const SAMPLES: [Measured; 6] = [
    Measured {
        name: "sums under a mutex",
        sample: Sample::SumsUnderMutex,
        input: &[3; 40],
    },
    Measured {
        name: "prints in a loop",
        sample: Sample::PrintInALoop,
        input: &[100],
    },
    Measured {
        name: "prints in a long loop",
        sample: Sample::PrintInALoop,
        input: &[1_000],
    },
    Measured {
        name: "stores in a loop",
        sample: Sample::StoresInALoop,
        input: &[8],
    },
    Measured {
        name: "racing stores",
        sample: Sample::RacingStores,
        input: &[100],
    },
    Measured {
        name: "quotients",
        sample: Sample::TwoThatDivide,
        input: &[5; 40],
    },
];
