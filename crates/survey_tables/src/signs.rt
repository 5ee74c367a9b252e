//! Words that are signs of dialects.

use crate::dialects::{
    BEFORE_83, Dialects, F79, F79_POLY, F83, F83_POLY, FIG, FIG_F79, LATER, POLY,
};

/// Words that speak for dialects, and how much each says.
#[derive(Clone, Copy)]
pub struct WordSigns {
    pub dialects: Dialects,
    pub weight: u8,
    pub words: &'static [u8],
}

/// Stronger and weaker signs, for words that a glossary alone does not decide. A word speaks also for each dialect of which a
/// glossary has it, and for the dialect to which a system with it goes back: MVP-FORTH's CFA is no sign of fig-FORTH alone.
pub static SIGNS: [WordSigns; 24] = [
    WordSigns {
        dialects: FIG,
        weight: 3,
        words: b"-DUP MINUS DMINUS -FIND ID. !CSP ?CSP ?PAIRS U/ R# +ORIGIN .LINE (LINE) D+- +- WIDTH DLITERAL \
    ?COMP ?EXEC CFA <BUILDS ENDIF SMUDGE LFA",
    },
    WordSigns {
        dialects: FIG,
        weight: 2,
        words: b"?ERROR MESSAGE 0BRANCH NFA PFA LATEST SP! ERROR DR0 DR1 MON ENCLOSE TRAVERSE",
    },
    WordSigns {
        dialects: FIG,
        weight: 1,
        words: b"TOGGLE B/SCR TRIAD C/L",
    },
    WordSigns {
        dialects: FIG_F79,
        weight: 1,
        words: b"S->D BLANKS ?TERMINAL VLIST",
    },
    WordSigns {
        dialects: BEFORE_83,
        weight: 3,
        words: b"U*",
    },
    WordSigns {
        dialects: F79,
        weight: 6,
        words: b"79-STANDARD",
    },
    WordSigns {
        dialects: F79,
        weight: 3,
        words: b"D->S LOADS ASHIFT SHIFT NAND NOR \\LOOP IFTRUE",
    },
    WordSigns {
        dialects: F79_POLY,
        weight: 3,
        words: b"U/MOD",
    },
    WordSigns {
        dialects: F79_POLY,
        weight: 2,
        words: b"<CMOVE /LOOP -TEXT I' >< 1+!",
    },
    WordSigns {
        dialects: LATER,
        weight: 2,
        words: b">IN ?DUP EXIT R@ NEGATE CONVERT ABORT\" 2CONSTANT 2VARIABLE",
    },
    WordSigns {
        dialects: LATER,
        weight: 1,
        words: b"NOT SAVE-BUFFERS PICK ROLL DEPTH",
    },
    WordSigns {
        dialects: F83,
        weight: 6,
        words: b"FORTH-83",
    },
    WordSigns {
        dialects: F83,
        weight: 4,
        words: b">BODY UM* UM/MOD +THRU ?LEAVE >NAME NAME> BODY> N>LINK L>NAME LINK> #TIB SPAN ?DO",
    },
    WordSigns {
        dialects: F83,
        weight: 3,
        words: b"DEFER RECURSE CASE: SEAL .ID ?ENOUGH FLIP DEFINED CMOVE> #OUT",
    },
    WordSigns {
        dialects: F83_POLY,
        weight: 3,
        words: b"[']",
    },
    WordSigns {
        dialects: F83,
        weight: 2,
        words: b"ONLY ALSO PREVIOUS \\S CONTROL NIP TUCK BOUNDS SCAN SKIP UPPER D2/ KEY? 2>R TIMES MANY FALSE \
    TRUE",
    },
    WordSigns {
        dialects: F83,
        weight: 1,
        words: b"\\ PC@ PC! -ROT <MARK >MARK <RESOLVE >RESOLVE PLACE",
    },
    WordSigns {
        dialects: LATER,
        weight: 1,
        words: b"ASCII",
    },
    WordSigns {
        dialects: POLY,
        weight: 4,
        words: b"FH 'S ACTIVATE CVARIABLE STRAIGHT BACKGROUND",
    },
    WordSigns {
        dialects: POLY,
        weight: 3,
        words: b"CCONSTANT CHARS/BLOCK CTR @EXECUTE >TYPE TERMINAL",
    },
    WordSigns {
        dialects: F79_POLY,
        weight: 2,
        words: b"M*/",
    },
    WordSigns {
        dialects: BEFORE_83,
        weight: 2,
        words: b"M/",
    },
    WordSigns {
        dialects: POLY,
        weight: 2,
        words: b"H EMPTY PAUSE",
    },
    WordSigns {
        dialects: POLY,
        weight: 1,
        words: b"GET RELEASE TAB MS PAGE",
    },
];

/// Words of one glossary that programs of every system had from listings and neighbors: they say nothing.
pub static EVERYWHERE: &[u8] =
    b"| ON OFF 2DUP 2DROP 2SWAP 2OVER 1- 2- 2* 2/ 0> U. U.R DEPTH PICK ROLL J .S --> THRU CASE OF \
    ENDOF ENDCASE MYSELF <> 2! 2@ C, HEX BL 0 1 2 3 -TRAILING .R THEN END AGAIN ERASE BLANK DUMP \
    TEXT LINE EDITOR FLUSH INDEX B/BUF OFFSET INTERPRET BELL BEEP NOOP AT CODE ;CODE END-CODE \
    ASSEMBLER USER COPY DELETE INSERT SEARCH PRINT SET NEXT POP PUT PUSH FIRST LIMIT FILE SHOW \
    STATUS SPACES QUERY ABORT FORGET DP FENCE LAST LINK LENGTH START STOP FORMAT SOURCE SELECT INPUT \
    OUTPUT PAGE MS H. D.R DABS UP DEFAULT DOWN RUN BINARY COL ROW LEN ASC SCREEN K TAB GET HIS \
    STRING RELOAD SINGLE PAUSE CLOSE OPEN WHERE POINT RESET CRT EMPTY USE IS EQ LINK NEST PLACE SP@ \
    S0 COLD P@ P! PC@ PC! LABEL WITHIN M+ M* M/ S->D WORDS VLIST L/S C/L FIND CREATE .ID (\") ,\" \" \
    TASK ENTRY LOCAL WAKE SLEEP CLEAR CHANGE";

/// Words of systems that no other system is likely to have.
pub static OWN_WORDS: &[u8] =
    b"$\" ACASE BANKC! BANKC@ BANKEEC! BANKEXECUTE CASE? CASEND NCASE ONLYFORTH PTC STOP? VAR \\NEEDS";

/// Words of fig-FORTH that are signs only by what they are used for.
pub static IN_USE: &[u8] = b"R IN";
