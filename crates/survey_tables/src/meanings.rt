//! What a word does in each dialect and without one, for those that differ.

use crate::dialects::Dialect;

/// What words, or a habit, do in each dialect, and without one.
#[derive(Clone, Copy)]
pub struct Meaning {
    pub words: &'static [u8],
    pub fig: &'static [u8],
    pub f79: &'static [u8],
    pub f83: &'static [u8],
    pub poly: &'static [u8],
    pub none: &'static [u8],
}

impl Meaning {
    /// What it is in a dialect.
    pub fn of(&self, dialect: Dialect) -> &'static [u8] {
        match dialect {
            Dialect::Fig => self.fig,
            Dialect::F79 => self.f79,
            Dialect::F83 => self.f83,
            Dialect::Poly => self.poly,
        }
    }
}

/// The words whose meaning differs.
pub static MEANINGS: [Meaning; 20] = [
    Meaning {
        words: b"/ MOD /MOD */ */MOD",
        fig: b"rounds towards 0",
        f79: b"rounds towards 0",
        f83: b"rounds down",
        poly: b"rounds towards 0",
        none: b"rounds down",
    },
    Meaning {
        words: b"PICK ROLL",
        fig: b"counts from 0",
        f79: b"counts from 1",
        f83: b"counts from 0",
        poly: b"counts from 0",
        none: b"counts from 0",
    },
    Meaning {
        words: b"LEAVE",
        fig: b"ends the loop at its LOOP",
        f79: b"ends the loop at its LOOP",
        f83: b"ends it at once",
        poly: b"ends the loop at its LOOP",
        none: b"ends it at once",
    },
    Meaning {
        words: b"NOT",
        fig: b"is 0=",
        f79: b"is 0=",
        f83: b"inverts each bit",
        poly: b"is 0=",
        none: b"inverts each bit",
    },
    Meaning {
        words: b"'",
        fig: b"gives the parameter field",
        f79: b"gives the parameter field",
        f83: b"gives the compilation address",
        poly: b"gives the compilation address",
        none: b"gives the compilation address",
    },
    Meaning {
        words: b"EXPECT",
        fig: b"adds two NULs",
        f79: b"adds a NUL",
        f83: b"adds no NUL",
        poly: b"adds no NUL",
        none: b"adds no NUL",
    },
    Meaning {
        words: b"MOVE",
        fig: b"counts cells",
        f79: b"counts cells",
        f83: b"counts bytes",
        poly: b"counts bytes",
        none: b"counts bytes",
    },
    Meaning {
        words: b"SIGN",
        fig: b"uses the number below the double",
        f79: b"uses the top",
        f83: b"uses the top",
        poly: b"uses the top",
        none: b"uses the top",
    },
    Meaning {
        words: b"FIND",
        fig: b"expects a text",
        f79: b"reads a name",
        f83: b"expects a text",
        poly: b"expects a text",
        none: b"expects a text",
    },
    Meaning {
        words: b"WORD",
        fig: b"leaves nothing",
        f79: b"leaves an address",
        f83: b"leaves an address",
        poly: b"leaves an address",
        none: b"leaves an address",
    },
    Meaning {
        words: b"VARIABLE",
        fig: b"pops its first value",
        f79: b"pops no value",
        f83: b"pops no value",
        poly: b"pops no value",
        none: b"pops no value",
    },
    Meaning {
        words: b"<BUILDS",
        fig: b"data 2 bytes after it",
        f79: b"data at the parameter field",
        f83: b"data at the parameter field",
        poly: b"data at the parameter field",
        none: b"data at the parameter field",
    },
    Meaning {
        words: b"M/MOD",
        fig: b"unsigned, a double quotient",
        f79: b"unsigned, a double quotient",
        f83: b"rounds down",
        poly: b"rounds towards 0",
        none: b"unknown",
    },
    Meaning {
        words: b"DO",
        fig: b"runs once if start and limit are equal",
        f79: b"runs once if start and limit are equal",
        f83: b"runs 65,536 times then",
        poly: b"runs once if start and limit are equal",
        none: b"runs 65,536 times then",
    },
    Meaning {
        words: b"/LOOP",
        fig: b"is +LOOP",
        f79: b"is unsigned",
        f83: b"is +LOOP",
        poly: b"is unsigned",
        none: b"is +LOOP",
    },
    Meaning {
        words: b"OFFSET",
        fig: b"is added to the numbers of blocks",
        f79: b"is added to the numbers of blocks",
        f83: b"is added to the numbers of blocks",
        poly: b"is added to the numbers of blocks",
        none: b"unknown",
    },
    Meaning {
        words: b"M/",
        fig: b"leaves remainder and quotient",
        f79: b"leaves remainder and quotient",
        f83: b"leaves remainder and quotient",
        poly: b"leaves the quotient",
        none: b"unknown",
    },
    Meaning {
        words: b"TIB",
        fig: b"holds the input's address",
        f79: b"is the input's address",
        f83: b"is the input's address",
        poly: b"is the input's address",
        none: b"is the input's address",
    },
    Meaning {
        words: b"NUMBER",
        fig: b"leaves a double",
        f79: b"leaves a double",
        f83: b"leaves a double",
        poly: b"leaves a single, or a double if it has a mark",
        none: b"unknown",
    },
    Meaning {
        words: b"FORTH",
        fig: b"is immediate",
        f79: b"is immediate",
        f83: b"is compiled in a definition",
        poly: b"is compiled in a definition",
        none: b"is compiled in a definition",
    },
];

/// A comparison's flag that is used in arithmetic.
pub static FLAG_IN_SUM: Meaning = Meaning {
    words: b"a flag in a sum",
    fig: b"true is 1",
    f79: b"true is 1",
    f83: b"true is -1",
    poly: b"true is 1",
    none: b"true is -1",
};

/// J that is in no loop of its definition.
pub static LONELY_J: Meaning = Meaning {
    words: b"J without loops",
    fig: b"is for two loops",
    f79: b"is for two loops",
    f83: b"is for two loops",
    poly: b"is the third cell of the return stack",
    none: b"is for two loops",
};

/// A key that is compared with the return key's number.
pub static RETURN_KEY: Meaning = Meaning {
    words: b"13 for a key",
    fig: b"KEY gives it for the return key",
    f79: b"KEY gives it for the return key",
    f83: b"KEY gives it for the return key",
    poly: b"KEY gives it for the return key",
    none: b"KEY gives 10 for the return key",
};

/// A loop that goes down.
pub static LOOP_DOWN: Meaning = Meaning {
    words: b"+LOOP downwards",
    fig: b"stops before the limit",
    f79: b"runs for the limit",
    f83: b"runs for the limit",
    poly: b"runs for the limit",
    none: b"runs for the limit",
};
