//! Studies, and why the refused ones are refused.

/// A study of one program, two numbers of alu stations and a mul unit of latency 3.
pub const STUDY_M: &str =
    "[[program]]\nname = \"mul\"\nfile = \"mul.bin\"\n[prices]\nalu = 10\n[axes]\nalu = [2, 1]\n\
        [[unit.mul]]\nlatency = 3\n";

/// A study of one program and two options for the alu units.
pub const STUDY_L: &str =
    "[[program]]\nname = \"loop\"\nfile = \"loop.bin\"\n[[unit.alu]]\nlatency = 1\nprice = 5\n[[unit.alu]]\n\
        latency = 10\nprice = 9\n";

/// Studies at the ends of the limits, which are read.
pub static LAWFUL: [&str; 23] = [
    "[[program]]\nname = \"0\"\nfile = \"a\"\n[[program]]\nname = \"1\"\nfile = \"a\"\n[[program]]\n\
        name = \"2\"\nfile = \"a\"\n[[program]]\nname = \"3\"\nfile = \"a\"\n[[program]]\nname = \"4\"\n\
        file = \"a\"\n[[program]]\nname = \"5\"\nfile = \"a\"\n[[program]]\nname = \"6\"\nfile = \"a\"\n\
        [[program]]\nname = \"7\"\nfile = \"a\"\n",
    "prices = {}\n[[program]]\nname = \"a\"\nfile = \"a.bin\"\n",
    "axes = {}\n[[program]]\nname = \"a\"\nfile = \"a.bin\"\n",
    "unit = {}\n[[program]]\nname = \"a\"\nfile = \"a.bin\"\n",
    "[[program]]\nname = \"aaaaaaaaaaaaaaaaaaaaaaaaaaaaaaaa\"\nfile = \"a.bin\"\n",
    "[[program]]\nname = \"az09_-\"\nfile = \"a.bin\"\n",
    "[[program]]\nname = \"a\"\nfile = \"a.bin\"\nbase = 4294967292\nsize = 4\n",
    "[[program]]\nname = \"a\"\nfile = \"a.bin\"\nsize = 4\n",
    "[[program]]\nname = \"a\"\nfile = \"a.bin\"\nsize = 1048576\n",
    "[[program]]\nname = \"a\"\nfile = \"a.bin\"\nlimit = 1\n",
    "[[program]]\nname = \"a\"\nfile = \"a.bin\"\nlimit = 262144\n",
    "[[program]]\nname = \"a\"\nfile = \"a.bin\"\nwatch = []\n",
    "[[program]]\nname = \"a\"\nfile = \"a.bin\"\nwatch = [[65532, 4]]\n",
    "[[program]]\nname = \"a\"\nfile = \"a.bin\"\nwatch = [[0, 2048], [0, 2048]]\n",
    "[[program]]\nname = \"a\"\nfile = \"a.bin\"\n\
        watch = [[0, 1], [0, 1], [0, 1], [0, 1], [0, 1], [0, 1], [0, 1], [0, 1]]\n",
    "[prices]\nalu = 1000000\nmul = 1000000\ndiv = 1000000\nload = 1000000\nstore = 1000000\nbru = 1000000\n\
        bus = 1000000\n[[program]]\nname = \"a\"\nfile = \"a.bin\"\n",
    "[axes]\nalu = [16]\nmul = [16]\ndiv = [16]\nload = [16]\nstore = [16]\nbru = [16]\nbuses = [8]\n\
        [[program]]\nname = \"a\"\nfile = \"a.bin\"\n",
    "[unit]\nalu = [{units = 8, latency = 64, price = 1000000}]\n\
        mul = [{units = 8, latency = 64, price = 1000000}]\ndiv = [{units = 8, latency = 64, price = 1000000}]\n\
        mem = [{units = 8, latency = 64, price = 1000000}]\nbru = [{units = 1, latency = 64, price = 1000000}]\n\
        [[program]]\nname = \"a\"\nfile = \"a.bin\"\n",
    "[axes]\nalu = [1, 1, 1, 1, 1, 1, 1, 1, 1, 1, 1, 1, 1, 1, 1, 1]\n\
        mul = [1, 1, 1, 1, 1, 1, 1, 1, 1, 1, 1, 1, 1, 1, 1, 1]\n\
        div = [1, 1, 1, 1, 1, 1, 1, 1, 1, 1, 1, 1, 1, 1, 1, 1]\nbuses = [1, 1, 1, 1]\n[[program]]\n\
        name = \"a\"\nfile = \"a.bin\"\n",
    "[[program]]\nname = \"a\"\nfile = \"a.bin\"\nweight = 1\n",
    "[[program]]\nname = \"a\"\nfile = \"a.bin\"\nweight = 1000\n",
    "[prices]\nwidth = 1000000\n[[program]]\nname = \"a\"\nfile = \"a.bin\"\n",
    "[axes]\nwidth = [1, 2, 3, 4]\n[[program]]\nname = \"a\"\nfile = \"a.bin\"\n",
];

/// Studies that fail a test of their top, and the text of the refusal.
pub static AT_TOP: [(&str, &str); 14] = [
    ("", "study: top: program missing"),
    ("[stations]", "study: top: unknown key"),
    ("program = []", "study: top: program out of range"),
    ("program = 3", "study: top: program of wrong kind"),
    (
        "[program]\nname = \"a\"",
        "study: top: program of wrong kind",
    ),
    (
        "program = [{x = 1}, 3]",
        "study: top: program of wrong kind",
    ),
    (
        "[[program]]\nname = \"0\"\nfile = \"a\"\n[[program]]\nname = \"1\"\nfile = \"a\"\n[[program]]\n\
            name = \"2\"\nfile = \"a\"\n[[program]]\nname = \"3\"\nfile = \"a\"\n[[program]]\nname = \"4\"\n\
            file = \"a\"\n[[program]]\nname = \"5\"\nfile = \"a\"\n[[program]]\nname = \"6\"\nfile = \"a\"\n\
            [[program]]\nname = \"7\"\nfile = \"a\"\n[[program]]\nname = \"8\"\nfile = \"a\"\n",
        "study: top: program out of range",
    ),
    (
        "prices = 3\n[[program]]\nx = 1\n",
        "study: top: prices of wrong kind",
    ),
    (
        "prices = []\n[[program]]\nname = \"a\"\nfile = \"a.bin\"\n",
        "study: top: prices of wrong kind",
    ),
    (
        "axes = 3\n[[program]]\nx = 1\n",
        "study: top: axes of wrong kind",
    ),
    (
        "axes = []\n[[program]]\nname = \"a\"\nfile = \"a.bin\"\n",
        "study: top: axes of wrong kind",
    ),
    (
        "unit = 3\n[[program]]\nx = 1\n",
        "study: top: unit of wrong kind",
    ),
    (
        "unit = []\n[[program]]\nname = \"a\"\nfile = \"a.bin\"\n",
        "study: top: unit of wrong kind",
    ),
    ("x = 99999999999999999999", "study: not TOML"),
];

/// Studies that fail a test of a program, and the text of the refusal.
pub static IN_PROGRAMS: [(&str, &str); 26] = [
    (
        "[[program]]\nname = \"a\"\nfile = \"a.bin\"\n[[program]]\nx = 1\n",
        "study: program 2: unknown key",
    ),
    (
        "[[program]]\nfile = \"a.bin\"\n",
        "study: program 1: name missing",
    ),
    (
        "[[program]]\nname = 3\nfile = \"a.bin\"\n",
        "study: program 1: name of wrong kind",
    ),
    (
        "[[program]]\nname = \"\"\nfile = \"a.bin\"\n",
        "study: program 1: name out of range",
    ),
    (
        "[[program]]\nname = \"A\"\nfile = \"a.bin\"\n",
        "study: program 1: name out of range",
    ),
    (
        "[[program]]\nname = \"a b\"\nfile = \"a.bin\"\n",
        "study: program 1: name out of range",
    ),
    (
        "[[program]]\nname = \"aaaaaaaaaaaaaaaaaaaaaaaaaaaaaaaaa\"\nfile = \"a.bin\"\n",
        "study: program 1: name out of range",
    ),
    (
        "[[program]]\nname = \"ä\"\nfile = \"a.bin\"\n",
        "study: program 1: name out of range",
    ),
    (
        "[[program]]\nname = \"a\"\nfile = \"a.bin\"\n[[program]]\nname = \"a\"\nfile = \"a.bin\"\n",
        "study: program 2: name out of range",
    ),
    (
        "[[program]]\nname = \"a\"\n",
        "study: program 1: file missing",
    ),
    (
        "[[program]]\nname = \"a\"\nfile = [\"a\"]\n",
        "study: program 1: file of wrong kind",
    ),
    (
        "[[program]]\nname = \"a\"\nfile = \"\"\n",
        "study: program 1: file out of range",
    ),
    (
        "[[program]]\nname = \"a\"\nfile = \"a.bin\"\nbase = 2\nsize = 6\n",
        "study: program 1: base out of range",
    ),
    (
        "[[program]]\nname = \"a\"\nfile = \"a.bin\"\nbase = -4\n",
        "study: program 1: base out of range",
    ),
    (
        "[[program]]\nname = \"a\"\nfile = \"a.bin\"\nbase = 4294967296\n",
        "study: program 1: base out of range",
    ),
    (
        "[[program]]\nname = \"a\"\nfile = \"a.bin\"\nbase = 4.0\n",
        "study: program 1: base of wrong kind",
    ),
    (
        "[[program]]\nname = \"a\"\nfile = \"a.bin\"\nbase = 4294967292\n",
        "study: program 1: size out of range",
    ),
    (
        "[[program]]\nname = \"a\"\nfile = \"a.bin\"\nbase = 4294967292\nsize = 8\n",
        "study: program 1: size out of range",
    ),
    (
        "[[program]]\nname = \"a\"\nfile = \"a.bin\"\nsize = \"4\"\n",
        "study: program 1: size of wrong kind",
    ),
    (
        "[[program]]\nname = \"a\"\nfile = \"a.bin\"\nsize = 0\n",
        "study: program 1: size out of range",
    ),
    (
        "[[program]]\nname = \"a\"\nfile = \"a.bin\"\nsize = 6\n",
        "study: program 1: size out of range",
    ),
    (
        "[[program]]\nname = \"a\"\nfile = \"a.bin\"\nsize = 1048580\n",
        "study: program 1: size out of range",
    ),
    (
        "[[program]]\nname = \"a\"\nfile = \"a.bin\"\nlimit = true\n",
        "study: program 1: limit of wrong kind",
    ),
    (
        "[[program]]\nname = \"a\"\nfile = \"a.bin\"\nlimit = 0\n",
        "study: program 1: limit out of range",
    ),
    (
        "[[program]]\nname = \"a\"\nfile = \"a.bin\"\nlimit = 262145\n",
        "study: program 1: limit out of range",
    ),
    (
        "[[program]]\nname = \"a\"\nfile = \"a.bin\"\nbase = 8\nwatch = [[7, 1]]\n",
        "study: program 1: watch out of range",
    ),
];

/// Studies that fail several tests, and the text of the first.
pub static ORDERED: [(&str, &str); 13] = [
    ("[stations]\n[[program]]\n", "study: top: unknown key"),
    (
        "[[program]]\nx = 1\n[prices]\nx = 1\n",
        "study: program 1: unknown key",
    ),
    (
        "[prices]\nx = 1\n[[program]]\nname = \"a\"\nfile = \"a.bin\"\n[[program]]\n",
        "study: program 2: name missing",
    ),
    (
        "[axes]\nx = 1\n[prices]\nx = 1\n[[program]]\nname = \"a\"\nfile = \"a.bin\"\n",
        "study: prices: unknown key",
    ),
    (
        "[prices]\nmul = \"1\"\nalu = -1\n[[program]]\nname = \"a\"\nfile = \"a.bin\"\n",
        "study: prices: alu out of range",
    ),
    (
        "[prices]\nbuses = 1\n[[program]]\nname = \"a\"\nfile = \"a.bin\"\n",
        "study: prices: unknown key",
    ),
    (
        "[axes]\nx = 1\n[unit]\nx = 1\n[[program]]\nname = \"a\"\nfile = \"a.bin\"\n",
        "study: axes: unknown key",
    ),
    (
        "[axes]\nbus = [1]\n[[program]]\nname = \"a\"\nfile = \"a.bin\"\n",
        "study: axes: unknown key",
    ),
    (
        "[unit]\nload = [{x = 1}]\nalu = [{x = 1}]\n[[program]]\nname = \"a\"\nfile = \"a.bin\"\n",
        "study: unit: unknown key",
    ),
    (
        "[unit]\nalu = [{latency = 2.0}]\nbru = []\n[[program]]\nname = \"a\"\nfile = \"a.bin\"\n",
        "study: unit: bru out of range",
    ),
    (
        "[unit]\nmul = [{x = 1}]\nalu = [{latency = 2.0}]\n[[program]]\nname = \"a\"\nfile = \"a.bin\"\n",
        "study: unit alu 1: latency of wrong kind",
    ),
    (
        "[axes]\nalu = [17]\n[[program]]\nname = \"a\"\nfile = \"a.bin\"\n",
        "study: axes: alu out of range",
    ),
    (
        "[axes]\nalu = [1, 1, 1, 1, 1, 1, 1, 1, 1, 1, 1, 1, 1, 1, 1, 1]\n\
            mul = [1, 1, 1, 1, 1, 1, 1, 1, 1, 1, 1, 1, 1, 1, 1, 1]\n\
            div = [1, 1, 1, 1, 1, 1, 1, 1, 1, 1, 1, 1, 1, 1, 1, 1]\nbuses = [1, 1, 1, 1, 1]\n[[program]]\n\
            name = \"a\"\nfile = \"a.bin\"\n",
        "study: too many configurations",
    ),
];

/// Studies with a wrong width or weight, and the text of the first refusal.
pub static WIDE: [(&str, &str); 16] = [
    (
        "[[program]]\nname = \"a\"\nfile = \"a.bin\"\nweight = 1001\n",
        "study: program 1: weight out of range",
    ),
    (
        "[[program]]\nname = \"a\"\nfile = \"a.bin\"\nweight = 0\n",
        "study: program 1: weight out of range",
    ),
    (
        "[[program]]\nname = \"a\"\nfile = \"a.bin\"\nweight = \"a\"\n",
        "study: program 1: weight of wrong kind",
    ),
    (
        "[[program]]\nname = \"a\"\nfile = \"a.bin\"\nwatch = 3\nweight = 0\n",
        "study: program 1: watch of wrong kind",
    ),
    (
        "[axes]\nwidth = [5]\n[[program]]\nname = \"a\"\nfile = \"a.bin\"\n",
        "study: axes: width out of range",
    ),
    (
        "[axes]\nwidth = [0]\n[[program]]\nname = \"a\"\nfile = \"a.bin\"\n",
        "study: axes: width out of range",
    ),
    (
        "[axes]\nwidth = []\n[[program]]\nname = \"a\"\nfile = \"a.bin\"\n",
        "study: axes: width out of range",
    ),
    (
        "[axes]\nwidth = 3\n[[program]]\nname = \"a\"\nfile = \"a.bin\"\n",
        "study: axes: width of wrong kind",
    ),
    (
        "[axes]\nwidth = [5]\nbuses = [9]\n[[program]]\nname = \"a\"\nfile = \"a.bin\"\n",
        "study: axes: buses out of range",
    ),
    (
        "[axes]\nwidth = [5]\n[[unit.alu]]\nx = 1\n[[program]]\nname = \"a\"\nfile = \"a.bin\"\n",
        "study: axes: width out of range",
    ),
    (
        "[prices]\nwidth = 1000001\n[[program]]\nname = \"a\"\nfile = \"a.bin\"\n",
        "study: prices: width out of range",
    ),
    (
        "[prices]\nwidth = [1]\n[[program]]\nname = \"a\"\nfile = \"a.bin\"\n",
        "study: prices: width of wrong kind",
    ),
    (
        "[prices]\nwidth = -1\nbus = -1\n[[program]]\nname = \"a\"\nfile = \"a.bin\"\n",
        "study: prices: bus out of range",
    ),
    (
        "[prices]\nweight = 1\n[[program]]\nname = \"a\"\nfile = \"a.bin\"\n",
        "study: prices: unknown key",
    ),
    (
        "[unit]\nwidth = [1]\n[[program]]\nname = \"a\"\nfile = \"a.bin\"\n",
        "study: unit: unknown key",
    ),
    (
        "[axes]\nwidth = [5]\n[[program]]\nname = \"a\"\nfile = \"a.bin\"\n[[program]]\nname = \"b\"\n\
            file = \"a.bin\"\nweight = 1001\n",
        "study: program 2: weight out of range",
    ),
];
