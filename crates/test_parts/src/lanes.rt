//! Kernels of packing, each by itself, on the words of the standard's example and others. The packer calls other
//! kernels.

use crate::same::same;
use cap_pack::lanes::scalars::{
    count_present, fulls_of_eights, scatter, squeezed, tag_of_word, zeros_of_eights,
};
use cap_pack::lanes::{gather, tags};

// The two words of the example. Packed they are 51 08 03 02 31 19 aa 01.
const FIRST: u64 = 0x0002_0003_0000_0008;

const SECOND: u64 = 0x0000_01aa_0000_0019;

// Eight words at once, and one by itself.
static WORDS: [u64; 9] = [
    FIRST,
    SECOND,
    0,
    u64::MAX,
    1,
    0x8000_0000_0000_0000,
    0,
    0,
    SECOND,
];

static TAGS: [u8; 9] = [0x51, 0x31, 0, 0xff, 1, 0x80, 0, 0, 0x31];

#[test]
fn tags_mark_bytes_that_are_not_zero(rt: HostRuntime) {
    let mut given = [0xee; 9];
    tags(&WORDS, &mut given);
    same(&rt, &given[..], &TAGS[..]);
}

#[test]
fn gather_leaves_zero_bytes_out(rt: HostRuntime) {
    let mut given = [0xee; 8];
    same(&rt, gather(FIRST, &mut given), 3);
    same(&rt, &given[..], &[8, 3, 2, 0, 0, 0, 0, 0][..]);
    same(&rt, gather(SECOND, &mut given), 3);
    same(&rt, &given[..], &[0x19, 0xaa, 1, 0, 0, 0, 0, 0][..]);
    same(&rt, gather(0, &mut given), 0);
    same(&rt, &given[..], &[0; 8][..]);
    same(&rt, gather(u64::MAX, &mut given), 8);
    same(&rt, &given[..], &[0xff; 8][..]);
}

#[test]
fn kernels_without_vectors_give_the_same(rt: HostRuntime) {
    for i in 0..9 {
        let tag = tag_of_word(WORDS[i]);
        same(&rt, tag, TAGS[i]);
        same(&rt, count_present(WORDS[i]), TAGS[i].count_ones());
        let present = squeezed(tag, WORDS[i]);
        let mut gathered = [0; 8];
        let _count = gather(WORDS[i], &mut gathered);
        same(&rt, &present[..], &gathered[..]);
        same(&rt, scatter(tag, &present), WORDS[i]);
    }
    // whole eights alone are counted
    same(&rt, zeros_of_eights(&[0; 17]), 16);
    same(&rt, fulls_of_eights(&[0x0001_0101_0101_0101; 17]), 16);
    same(&rt, fulls_of_eights(&[0x0000_0101_0101_0101; 8]), 0);
}
