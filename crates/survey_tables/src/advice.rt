//! What to write for what can't be.

/// Words, and what to write for them.
#[derive(Clone, Copy)]
pub struct Advice {
    pub words: &'static [u8],
    pub text: &'static [u8],
}

/// What can't be, and what to write.
pub static ADVICE: [Advice; 18] = [
    Advice {
        words: b"CODE LABEL",
        text: b"there is no assembler: write the word with :",
    },
    Advice {
        words: b";CODE",
        text: b"there is no assembler: write DOES>",
    },
    Advice {
        words: b"SP@ 'S",
        text: b"the stack is not in memory: write PICK or DEPTH",
    },
    Advice {
        words: b"S0",
        text: b"the stack is not in memory: write DEPTH",
    },
    Advice {
        words: b"P@ P! PC@ PC! INP OUTP INPUT OUTPUT",
        text: b"there are no ports: load screens/dialects/ports.txt, or define it after the dialect",
    },
    Advice {
        words: b"FROM OPEN",
        text: b"one block file at a time: import that one, too",
    },
    Advice {
        words: b"BACKGROUND: TERMINAL TASK:",
        text: b"there is one task: call its word from the main loop",
    },
    Advice {
        words: b"+ORIGIN LIMIT FIRST USE PREV R0 R/W +BUF",
        text: b"internal to fig-FORTH: there is no such place here",
    },
    Advice {
        words: b"@L !L C@L C!L",
        text: b"there are no segments: define a word of this name",
    },
    Advice {
        words: b"AUTOSTART",
        text: b"write BOOT NAME, and make an image by ./forth --image",
    },
    Advice {
        words: b"S\"",
        text: b"write \" for it, or load screens/dialects/hs.txt",
    },
    Advice {
        words: b"VAR",
        text: b"screens/dialects/hs.txt has it",
    },
    Advice {
        words: b"NCASE CASEND OTHERWISE ARRAY 2ARRAY RND PTC",
        text: b"screens/dialects/mms.txt has it",
    },
    Advice {
        words: b"\\NEEDS ALIAS ONLYFORTH CASE?",
        text: b"screens/dialects/volks.txt has it",
    },
    Advice {
        words: b"FOR",
        text: b"a loop of cmFORTH, whose index runs from n down to 0: write 0 SWAP DO .. -1 +LOOP",
    },
    Advice {
        words: b"NEXT",
        text: b"the end of FOR in cmFORTH, or of a word in machine code: there is no assembler",
    },
    Advice {
        words: b"DEFINER RUNS>",
        text: b"of the Jupiter Ace: write : NAME CREATE .. DOES> .. ;",
    },
    Advice {
        words: b"DR1",
        text: b"put the number of the second disk's first screen into OFFSET",
    },
];

/// What a machine had at addresses that programs use for devices.
#[derive(Clone, Copy)]
pub struct Map {
    pub first: u32,
    pub last: u32,
    pub machine: &'static [u8],
}

/// The machines.
pub static MAPS: [Map; 7] = [
    Map {
        first: 0x1700,
        last: 0x17ff,
        machine: b"KIM-1",
    },
    Map {
        first: 0x3c00,
        last: 0x3fff,
        machine: b"TRS-80",
    },
    Map {
        first: 0xa000,
        last: 0xafff,
        machine: b"AIM-65 or SYM-1",
    },
    Map {
        first: 0xb000,
        last: 0xb0ff,
        machine: b"68HC11",
    },
    Map {
        first: 0xc000,
        last: 0xc0ff,
        machine: b"Apple II",
    },
    Map {
        first: 0xd000,
        last: 0xdfff,
        machine: b"Commodore 64 or Atari",
    },
    Map {
        first: 0xe800,
        last: 0xe8ff,
        machine: b"PET",
    },
];
