//! Values that no key of a document may have, and their faults: for each key of a table, and for each kind of unit.

/// A document and the text of its refusal: a table with this value of a key, and a program.
macro_rules! refused {
    ($table:literal, $key:literal, $value:literal, $fault:literal) => {
        (
            concat!(
                "[",
                $table,
                "]\n",
                $key,
                " = ",
                $value,
                "\n[[program]]\nname = \"a\"\nfile = \"a.bin\"\n"
            ),
            concat!("study: ", $table, ": ", $key, " ", $fault),
        )
    };
}

/// The same for keys of the prices.
macro_rules! refused_prices {
    ($($key:literal)*) => {
        [$(
            refused!("prices", $key, "\"1\"", "of wrong kind"),
            refused!("prices", $key, "-1", "out of range"),
            refused!("prices", $key, "1000001", "out of range"),
        )*]
    };
}

/// The same for keys of the axes, each with a list whose last value is above the limit.
macro_rules! refused_axes {
    ($($key:literal $above:literal)*) => {
        [$(
            refused!("axes", $key, "1", "of wrong kind"),
            refused!("axes", $key, "[99, \"a\"]", "of wrong kind"),
            refused!("axes", $key, "[]", "out of range"),
            refused!("axes", $key, "[0]", "out of range"),
            refused!("axes", $key, $above, "out of range"),
        )*]
    };
}

/// The same for kinds of unit.
macro_rules! refused_units {
    ($($key:literal)*) => {
        [$(
            refused!("unit", $key, "1", "of wrong kind"),
            refused!("unit", $key, "{latency = 2}", "of wrong kind"),
            refused!("unit", $key, "[{}, 3]", "of wrong kind"),
            refused!("unit", $key, "[]", "out of range"),
        )*]
    };
}

/// A document and the text of its refusal: the second option of this kind of unit is this one.
macro_rules! refused_option {
    ($kind:literal, $option:literal, $fault:literal) => {
        (
            concat!(
                "[unit]\n",
                $kind,
                " = [{}, {",
                $option,
                "}]\n[[program]]\nname = \"a\"\nfile = \"a.bin\"\n"
            ),
            concat!("study: unit ", $kind, " 2: ", $fault),
        )
    };
}

/// The same for kinds of unit, each with more units than it may have.
macro_rules! refused_options {
    ($($kind:literal $above:literal)*) => {
        [$(
            refused_option!($kind, "x = 1", "unknown key"),
            refused_option!($kind, "units = 1.0", "units of wrong kind"),
            refused_option!($kind, "units = 0", "units out of range"),
            refused_option!($kind, $above, "units out of range"),
            refused_option!($kind, "latency = 2.0", "latency of wrong kind"),
            refused_option!($kind, "latency = 0", "latency out of range"),
            refused_option!($kind, "latency = 65", "latency out of range"),
            refused_option!($kind, "price = []", "price of wrong kind"),
            refused_option!($kind, "price = -1", "price out of range"),
            refused_option!($kind, "price = 1000001", "price out of range"),
        )*]
    };
}

/// The same for ranges that a program can't watch.
macro_rules! refused_ranges {
    ($($ranges:literal $fault:literal)*) => {
        [$(
            (
                concat!("[[program]]\nname = \"a\"\nfile = \"a.bin\"\nwatch = ", $ranges, "\n"),
                concat!("study: program 1: watch ", $fault),
            ),
        )*]
    };
}

/// Each price.
pub static PRICES: [(&str, &str); 21] =
    refused_prices!("alu" "mul" "div" "load" "store" "bru" "bus");

/// Each list of counts.
pub static AXES: [(&str, &str); 35] = refused_axes!(
    "alu" "[1, 17]"
    "mul" "[1, 17]"
    "div" "[1, 17]"
    "load" "[1, 17]"
    "store" "[1, 17]"
    "bru" "[1, 17]"
    "buses" "[1, 9]"
);

/// Each kind of unit.
pub static UNITS: [(&str, &str); 20] = refused_units!("alu" "mul" "div" "mem" "bru");

/// And its options.
pub static OPTIONS: [(&str, &str); 50] = refused_options!(
    "alu" "units = 9"
    "mul" "units = 9"
    "div" "units = 9"
    "mem" "units = 9"
    "bru" "units = 2"
);

/// Ranges.
pub static WATCHED: [(&str, &str); 14] = refused_ranges!(
    "3" "of wrong kind"
    "[1]" "of wrong kind"
    "[[1, 2], \"a\"]" "of wrong kind"
    "[[1, 2.0]]" "of wrong kind"
    "[[65532, 8]]" "out of range"
    "[[1]]" "out of range"
    "[[]]" "out of range"
    "[[0, 1, 2]]" "out of range"
    "[[0, 0]]" "out of range"
    "[[-1, 1]]" "out of range"
    "[[65536, 1]]" "out of range"
    "[[0, 4097]]" "out of range"
    "[[0, 4096], [0, 1]]" "out of range"
    "[[0, 1], [0, 1], [0, 1], [0, 1], [0, 1], [0, 1], [0, 1], [0, 1], [0, 1]]" "out of range"
);
