// A list with the codes of each byte.
ghost use Rattle.std.specs.Prelude.{◌≡◌, ◌<◌};
ghost use Rattle.codes.specs.Classes.{word_at};

// 256 sets, a bit for each code, eight sets to a word: that of byte 8 * k + i stands in bits 8 * i to 8 * i + 7 of word k.
static CLASSES: [u64; 32] = [
    0x0606060606060606,
    0x0606060606060606,
    0x0606060606060606,
    0x0606060606060606,
    0x2424242424242424,
    0x2424242424242424,
    0x1414141414141414,
    0x2424242424241414,
    0x4545454545454524,
    0x4545454545454545,
    0x4545454545454545,
    0x2424242424454545,
    0x0d0d0d0d0d0d0d24,
    0x0d0d0d0d0d0d0d0d,
    0x0d0d0d0d0d0d0d0d,
    0x06242424240d0d0d,
    0x0404040404040404,
    0x0404040404040404,
    0x0404040404040404,
    0x0404040404040404,
    0x0404040404040404,
    0x0404040404040404,
    0x0404040404040404,
    0x0404040404040404,
    0x0404040404040404,
    0x0404040404040404,
    0x0404040404040404,
    0x0404040404040404,
    0x0404040404040404,
    0x0404040404040404,
    0x0404040404040404,
    0x0404040404040404,
];

// Word k. A static: a `const` list read at a place that isn't known would be built anew at each look.
pub fn word(k: u8) -> u64
    requires { k < 32 }
    ensures { result ≡ word_at k }
{
    CLASSES[k as usize]
}
