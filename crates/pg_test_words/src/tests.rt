//! Worked rows: what is stored is loaded again, and parts of a granule, granules, words of threads and the turn word stand beside one
//! another. The expected numbers follow from the order of the bytes, low byte first.

use crate::anything::Anything;
use pg_ir::ThreadNo;
use pg_num::{Place, Pointer, pack, place};
use pg_words::Words;
use std::test::Fail;

type AnyWords = Words<(), (), Anything>;

/// Two bytes of a granule below 64, from its byte 2 on.
fn middle(granule: u32) -> Result<Place, Fail> {
    let word = pack(Pointer {
        start: if granule < 64 { granule } else { 0 },
        length: 8,
        offset: 2,
    });
    Ok(place(word, 2).ok().ok_or("no place")?)
}

#[test]
#[tactic(auto, using(crate::proofs::Allowed::allows, crate::proofs::Allowed::part))]
fn parts_stand_beside_one_another(rt: HostRuntime) -> Result<(), Fail> {
    let (words, mut seat) = AnyWords::new(rt.alloc(), &())?;
    let whole = Place::whole_granule(3);
    let part = middle(3)?;
    words.store::<Anything>(&mut seat, whole, 0x1122_3344_5566_7788);
    assert_eq!(rt;
        words.load::<Anything>(&mut seat, whole),
        0x1122_3344_5566_7788
    );
    if part.bytes() == 2 {
        words.store_part::<Anything, Anything>(&mut seat, part, 0xabcd);
        assert_eq!(rt; words.load::<Anything>(&mut seat, part), 0xabcd);
        assert_eq!(rt;
            words.load::<Anything>(&mut seat, whole),
            0x1122_3344_abcd_7788
        );
        words.store_part::<Anything, Anything>(&mut seat, part, 1);
        assert_eq!(rt;
            words.load::<Anything>(&mut seat, whole),
            0x1122_3344_0001_7788
        );
    }
    assert_eq!(rt;
        words.load::<Anything>(&mut seat, Place::whole_granule(2)),
        0
    );
    assert_eq!(rt;
        words.load::<Anything>(&mut seat, Place::whole_granule(4)),
        0
    );
    Ok(())
}

#[test]
#[tactic(auto, using(crate::proofs::Allowed::allows))]
fn turns_threads_and_granules_stand_apart(rt: HostRuntime) -> Result<(), Fail> {
    let (words, mut seat) = AnyWords::new(rt.alloc(), &())?;
    words.advance::<Anything>(&mut seat);
    words.advance::<Anything>(&mut seat);
    words.put_exit::<Anything>(&mut seat, ThreadNo(0), 7);
    words.put_exit::<Anything>(&mut seat, ThreadNo(63), 8);
    words.store::<Anything>(&mut seat, Place::whole_granule(0), 9);
    words.store::<Anything>(&mut seat, Place::whole_granule(0x3f_ffff), 10);
    assert_eq!(rt; words.turn::<Anything>(&mut seat), 2);
    assert_eq!(rt; words.peek(), 2);
    words.clear_turn::<Anything>(&mut seat);
    assert_eq!(rt; words.turn::<Anything>(&mut seat), 0);
    assert_eq!(rt; words.get_exit::<Anything>(&mut seat, ThreadNo(0)), 7);
    assert_eq!(rt; words.get_exit::<Anything>(&mut seat, ThreadNo(1)), 0);
    assert_eq!(rt; words.get_exit::<Anything>(&mut seat, ThreadNo(63)), 8);
    assert_eq!(rt;
        words.load::<Anything>(&mut seat, Place::whole_granule(0)),
        9
    );
    assert_eq!(rt;
        words.load::<Anything>(&mut seat, Place::whole_granule(0x3f_ffff)),
        10
    );
    Ok(())
}

#[test]
#[tactic(auto, using(crate::proofs::Allowed::allows, crate::proofs::Allowed::splits, crate::proofs::Allowed::joins))]
fn seats_are_split_and_joined(rt: HostRuntime) -> Result<(), Fail> {
    let (words, mut seat) = AnyWords::new(rt.alloc(), &())?;
    let mut other = words.split::<Anything>(&mut seat);
    words.store::<Anything>(&mut other, Place::whole_granule(1), 5);
    assert_eq!(rt;
        words.load::<Anything>(&mut seat, Place::whole_granule(1)),
        5
    );
    let third = words.split::<Anything>(&mut seat);
    words.join::<Anything>(&mut seat, third);
    words.store::<Anything>(&mut seat, Place::whole_granule(1), 6);
    assert_eq!(rt;
        words.load::<Anything>(&mut seat, Place::whole_granule(1)),
        6
    );
    Ok(())
}
