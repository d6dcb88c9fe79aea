use crate::ctr_blocks;
use aes_core::Aes128;

// The key of the examples in SP 800-38A.
const KEY: [u8; 16] = [
    0x2b, 0x7e, 0x15, 0x16, 0x28, 0xae, 0xd2, 0xa6, 0xab, 0xf7, 0x15, 0x88, 0x09, 0xcf, 0x4f, 0x3c,
];

// SP 800-38A, F.5.1, blocks 1 and 2.
#[test]
fn two_blocks_of_the_standard(rt: HostRuntime) {
    let mut counter = 0xf0f1f2f3f4f5f6f7f8f9fafbfcfdfeff_u128.to_be_bytes();
    let mut text = [
        0x6b, 0xc1, 0xbe, 0xe2, 0x2e, 0x40, 0x9f, 0x96, 0xe9, 0x3d, 0x7e, 0x11, 0x73, 0x93, 0x17,
        0x2a, 0xae, 0x2d, 0x8a, 0x57, 0x1e, 0x03, 0xac, 0x9c, 0x9e, 0xb7, 0x6f, 0xac, 0x45, 0xaf,
        0x8e, 0x51,
    ];
    ctr_blocks(&Aes128::new(&KEY), &mut counter, &mut text);
    assert!(rt;
        &text[..16]
            == 0x874d6191b620e3261bef6864990db6ce_u128
                .to_be_bytes()
                .as_slice()
    );
    assert!(rt;
        &text[16..]
            == 0x9806f66b7970fdff8617187bb9fffdff_u128
                .to_be_bytes()
                .as_slice()
    );
    assert_eq!(rt;
        counter,
        0xf0f1f2f3f4f5f6f7f8f9fafbfcfdff01_u128.to_be_bytes()
    );
}

// From the counter of sixteen bytes ff the next is that of sixteen zeros.
#[test]
fn the_counter_wraps(rt: HostRuntime) {
    let aes = Aes128::new(&KEY);
    let mut counter = [0xff; 16];
    let mut text = [0; 32];
    ctr_blocks(&aes, &mut counter, &mut text);
    let mut ones = [0xff; 16];
    aes.encrypt(&mut ones);
    let mut zeros = [0; 16];
    aes.encrypt(&mut zeros);
    assert!(rt; &text[..16] == ones.as_slice());
    assert!(rt; &text[16..] == zeros.as_slice());
    assert_eq!(rt; counter, 1_u128.to_be_bytes());
}

// Eight blocks, among which the counter wraps, and one more, by another implementation.
#[test]
fn nine_blocks(rt: HostRuntime) {
    let mut counter = 0xfffffffffffffffffffffffffffffffd_u128.to_be_bytes();
    let mut text = [0; 144];
    ctr_blocks(&Aes128::new(&KEY), &mut counter, &mut text);
    let ciphers = [
        0xfefa381ae647a228971edb025c6e72e2_u128,
        0xd1b714b6fbf5fff1289aee2a4c4eeda3,
        0x8af2860142f786f409307c1a3f7eaaac,
        0x7df76b0c1ab899b33e42f047b91b546f,
        0x57127d4034b1bebfaef466b9c7726fc6,
        0x973f2ef34879e2027f1734303ff21f89,
        0x469c7fcb75d5d9a1b418cb997b09a185,
        0x8a7c37ad7c3edf32495ececadec2311c,
        0xef28d82739fd8c7147323f7e91c0cbfa,
    ];
    for (i, cipher) in ciphers.iter().enumerate() {
        let block = cipher.to_be_bytes();
        assert!(rt; &text[16 * i..16 * i + 16] == block.as_slice(), "block {i}");
    }
    assert_eq!(rt; counter, 6_u128.to_be_bytes());
}
