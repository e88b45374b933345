//! The studies and the files of these tests.
use tomex_tests_fixtures::programs::{CALLS, ELF, LOOP, PRODUCT};
use tomex_tests_fixtures::studies::{DROPPED, PRODUCT_STUDY};

/// `lui x1,32; addi x1,x1,-2; nop; addi x1,x1,-1; bne x1,x0,-4; ebreak`: its loop is run 131,070 times, so the run
/// has 262,144 steps.
const LONG: &[u8; 24] =
    b"\xb7\x00\x02\x00\x93\x80\xe0\xff\x13\x00\x00\x00\x93\x80\xf0\xff\xe3\x9e\x00\xfe\x73\x00\x10\x00";

/// A study of that program.
const ONE: &str = "[[program]]\nname = \"long\"\nfile = \"long.bin\"\n";

/// A study of eight programs, each with eight ranges that it watches.
const EIGHT: &str =
    "[[program]]\nname = \"p0\"\nfile = \"loop.bin\"\nwatch = [[0, 4], [4, 4], [8, 4], [12, 4], \
    [16, 4], [20, 4], [24, 4], [28, 4]]\n\
    [[program]]\nname = \"p1\"\nfile = \"loop.bin\"\nwatch = [[0, 4], [4, 4], [8, 4], [12, 4], \
    [16, 4], [20, 4], [24, 4], [28, 4]]\n\
    [[program]]\nname = \"p2\"\nfile = \"loop.bin\"\nwatch = [[0, 4], [4, 4], [8, 4], [12, 4], \
    [16, 4], [20, 4], [24, 4], [28, 4]]\n\
    [[program]]\nname = \"p3\"\nfile = \"loop.bin\"\nwatch = [[0, 4], [4, 4], [8, 4], [12, 4], \
    [16, 4], [20, 4], [24, 4], [28, 4]]\n\
    [[program]]\nname = \"p4\"\nfile = \"loop.bin\"\nwatch = [[0, 4], [4, 4], [8, 4], [12, 4], \
    [16, 4], [20, 4], [24, 4], [28, 4]]\n\
    [[program]]\nname = \"p5\"\nfile = \"loop.bin\"\nwatch = [[0, 4], [4, 4], [8, 4], [12, 4], \
    [16, 4], [20, 4], [24, 4], [28, 4]]\n\
    [[program]]\nname = \"p6\"\nfile = \"loop.bin\"\nwatch = [[0, 4], [4, 4], [8, 4], [12, 4], \
    [16, 4], [20, 4], [24, 4], [28, 4]]\n\
    [[program]]\nname = \"p7\"\nfile = \"loop.bin\"\nwatch = [[0, 4], [4, 4], [8, 4], [12, 4], \
    [16, 4], [20, 4], [24, 4], [28, 4]]\n";

/// 1,024 configurations that cost nothing and differ in stations that the program doesn't use: all are on the front.
const ALIKE: &str = "[[program]]\nname = \"loop\"\nfile = \"loop.bin\"\n[axes]\n\
    div = [1, 2, 3, 4, 5, 6, 7, 8, 9, 10, 11, 12, 13, 14, 15, 16]\nload = [1, 2, 3, 4]\n\
    store = [1, 2, 3, 4, 5, 6, 7, 8, 9, 10, 11, 12, 13, 14, 15, 16]\n";

/// The same with up to nine load stations: 2,304 configurations.
const LONGER: &str = "[[program]]\nname = \"loop\"\nfile = \"loop.bin\"\n[axes]\n\
    div = [1, 2, 3, 4, 5, 6, 7, 8, 9, 10, 11, 12, 13, 14, 15, 16]\nload = [1, 2, 3, 4, 5, 6, 7, 8, 9]\n\
    store = [1, 2, 3, 4, 5, 6, 7, 8, 9, 10, 11, 12, 13, 14, 15, 16]\n";

/// 16,384 configurations, the most of a study. They differ in stations that the product doesn't use, and by these
/// prices each costs one more than the one before.
const MOST: &str = "[[program]]\nname = \"mul\"\nfile = \"mul.bin\"\nsize = 4096\n\
    [prices]\ndiv = 1024\nload = 64\nstore = 4\nbru = 1\n[axes]\n\
    div = [1, 2, 3, 4, 5, 6, 7, 8, 9, 10, 11, 12, 13, 14, 15, 16]\n\
    load = [1, 2, 3, 4, 5, 6, 7, 8, 9, 10, 11, 12, 13, 14, 15, 16]\n\
    store = [1, 2, 3, 4, 5, 6, 7, 8, 9, 10, 11, 12, 13, 14, 15, 16]\n\
    bru = [1, 2, 3, 4]\n";

/// Half of them.
const HALF: &str = "[[program]]\nname = \"mul\"\nfile = \"mul.bin\"\nsize = 4096\n\
    [prices]\ndiv = 1024\nload = 64\nstore = 4\nbru = 1\n[axes]\n\
    div = [1, 2, 3, 4, 5, 6, 7, 8, 9, 10, 11, 12, 13, 14, 15, 16]\n\
    load = [1, 2, 3, 4, 5, 6, 7, 8, 9, 10, 11, 12, 13, 14, 15, 16]\n\
    store = [1, 2, 3, 4, 5, 6, 7, 8, 9, 10, 11, 12, 13, 14, 15, 16]\n\
    bru = [1, 2]\n";

/// Multipliers of four latencies in place of branch stations: the product takes differently many cycles, so that
/// `weights` has a column for it. The first row is the fastest and the cheapest.
const SLOWER: &str = "[[program]]\nname = \"mul\"\nfile = \"mul.bin\"\nsize = 4096\n\
    [prices]\ndiv = 1024\nload = 64\nstore = 4\nbru = 1\n\
    [[unit.mul]]\n[[unit.mul]]\nlatency = 2\n[[unit.mul]]\nlatency = 3\n[[unit.mul]]\nlatency = 4\n[axes]\n\
    div = [1, 2, 3, 4, 5, 6, 7, 8, 9, 10, 11, 12, 13, 14, 15, 16]\n\
    load = [1, 2, 3, 4, 5, 6, 7, 8, 9, 10, 11, 12, 13, 14, 15, 16]\n\
    store = [1, 2, 3, 4, 5, 6, 7, 8, 9, 10, 11, 12, 13, 14, 15, 16]\n";

const FREE: &str = "[[program]]\nname = \"mul\"\nfile = \"mul.bin\"\nsize = 4096\n[axes]\n\
    div = [1, 2, 3, 4, 5, 6, 7, 8, 9, 10, 11, 12, 13, 14, 15, 16]\n\
    load = [1, 2, 3, 4, 5, 6, 7, 8, 9, 10, 11, 12, 13, 14, 15, 16]\n\
    store = [1, 2, 3, 4, 5, 6, 7, 8, 9, 10, 11, 12, 13, 14, 15, 16]\n\
    bru = [1, 2, 3, 4]\n";

/// Twelve machines: one to four alu stations, a fast and a slow multiplier, one or two buses.
const TWELVE: &str =
    "[[program]]\nname = \"mul\"\nfile = \"mul.bin\"\n[prices]\nalu = 10\nbus = 25\n\
    [axes]\nalu = [1, 2, 4]\nbuses = [1, 2]\n\
    [[unit.mul]]\nlatency = 3\nprice = 40\n[[unit.mul]]\nlatency = 6\nprice = 15\n";

/// Three programs on two machines.
const THREE: &str = "[[program]]\nname = \"a\"\nfile = \"mul.bin\"\n\
    [[program]]\nname = \"b\"\nfile = \"loop.bin\"\n\
    [[program]]\nname = \"c\"\nfile = \"mul.bin\"\n[axes]\nalu = [1, 2]\n";

/// A study of a program with symbols.
const CALLS_STUDY: &str = "[[program]]\nname = \"p\"\nfile = \"calls.elf\"\n";

/// Two rows, of two alu stations and of one.
pub const PRICED: &str = "[[program]]\nname = \"mul\"\nfile = \"mul.bin\"\n[prices]\nalu = 10\n\
    [axes]\nalu = [2, 1]\n[[unit.mul]]\nlatency = 3\n";

/// A file of a run: its name, and its bytes.
pub type File = (&'static str, &'static [u8]);

/// Programs, and studies of them.
pub fn files() -> [File; 20] {
    [
        ("long.bin", LONG.as_slice()),
        ("loop.bin", LOOP.as_slice()),
        ("mul.bin", PRODUCT.as_slice()),
        ("image", ELF.as_slice()),
        ("calls.elf", CALLS.as_slice()),
        ("one", ONE.as_bytes()),
        ("eight", EIGHT.as_bytes()),
        ("alike", ALIKE.as_bytes()),
        ("longer", LONGER.as_bytes()),
        ("most", MOST.as_bytes()),
        ("half", HALF.as_bytes()),
        ("slower", SLOWER.as_bytes()),
        ("free", FREE.as_bytes()),
        ("twelve", TWELVE.as_bytes()),
        ("three", THREE.as_bytes()),
        ("calls", CALLS_STUDY.as_bytes()),
        ("product", PRODUCT_STUDY.as_bytes()),
        ("dropped", DROPPED.as_bytes()),
        ("priced", PRICED.as_bytes()),
        ("loop", LOOP.as_slice()),
    ]
}
