//! What texts of this repository say. tools/make-survey-texts wrote it: change the texts.

use crate::words::LeftOut;

/// The tools that screens don't find.
pub static TOOLS: &[u8] =
    b"ARGUMENT B BACK BREAK BREAK-AT BYE-WITH COPIES COPY DEBUG DELETE DOOR ED EDIT EKEY ENVIRONMENT \
    FAULT FAULTED FORTH-VOC FRESH HELP HISTORY INSERT L LINE LOCATE N PROFILE PUT RCLEAR RELOAD \
    REQUIRE RETYPE SAVE SCLEAR SEARCH SEE SHADOW TELL UNDO VERSION VIEW WHY WIPE";

/// What each dialect hides once it is loaded.
pub static HIDDEN: &[u8] = b"?GUARDED ?LEFT-OUT ?SAFE HELPERS IN-NAMES? LEAVE-OUT REASONS";

/// The names that fig.txt makes.
pub static NAMES_FIG: &[u8] =
    b"! !CSP \" ' ( (\") (+LOOP) (+ROUND) (ABORT) (BLOCK) (BOUND) (BUILDS) (DO) (DOWN) (ENTER) (LEFT) \
    (LINE) (LOOP) (NUMBER) (ONCE) (ROUND) */ */MOD +! +- +LOOP , ,\" --> -DUP -FIND -ROT . .\" .LINE \
    .R / /LOOP /MOD 0 0< 0<> 0= 0> 0BRANCH ; ;CODE ;S < <> <BUILDS <CMOVE = > ? ?COMP ?CSP ?ERROR \
    ?EXEC ?LOADED ?LOADING ?PAIRS ?STACK ?TERMINAL AGAIN ALSO ASCII B/BUF B/SCR BACK BEGIN BLANKS \
    BLOCK BOUNDS BUFFER C! C/L C@ CFA CMOVE CODE CONTEXT CSP CURRENT D+- D. D.R D0= D< D= DEFER \
    DIALECT-ON DIGIT DLIST DLITERAL DMINUS DO DOES> DPL DR0 DU< ELSE EMIT ENCLOSE END ENDIF ERASE \
    ERROR EXPECT FALSE FILL FLD FORTH H. ID. IF IN IS KEY LATEST LEAVE LFA LIST LIT LITERAL LOAD \
    LOOP M* M+ M/ M/MOD MESSAGE MINUS MOD MON MOVE MYSELF NFA NIP NOT NUMBER NUMBER-MARKS OCTAL \
    OFFSET ONLY OUT PAGE PERFORM PFA PREVIOUS QUOTED R R# REPEAT RETURN-KEY RUBOUT-KEY S->D S>D SEAL \
    SIGN SMUDGE SP! SP@ SPACE SPACES TASK TEXT THEN THRU TIB TOGGLE TRAVERSE TRIAD TRUE TUCK TYPE U* \
    U. U.R U/ U< U> UNTIL USER VARIABLE VLIST VOCABULARY WHILE WIDTH WORD ['] \\S";

/// The names that f79.txt makes.
pub static NAMES_F79: &[u8] =
    b"! \" ' (\") (+LOOP) (+ROUND) (/ROUND) (BOUND) (DO) (DOWN) (ENTER) (LEFT) (LOOP) (ONCE) (ROUND) \
    ** */ */MOD +! +BLOCK +LOOP , ,\" --> -ROT -TEXT / /LOOP /MOD 0< 0<> 0= 0> 1+! 1-! 79-STANDARD ; \
    ;CODE ;S < <> <BUILDS <CMOVE = > >< ?LOADED ?TERMINAL ALSO ASCII ASHIFT B/BUF B/SCR BELL BLANKS \
    BLOCK BOUNDS BUFFER C! C/L C@ CFA CMOVE CODE COM D+- D->S D0= D< D= DEFER DIALECT-ON DO DPL DU< \
    END ENDIF ERASE EXPECT FALSE FILL FIND FLD FORTH H. I' ID. IS K KEY L/SCR LATEST LEAVE LFA LIST \
    LITERAL LOAD LOADS LOOP M* M*/ M+ M/ M/MOD MOD MOVE MYSELF NAND NFA NIP NOR NOT NUMBER \
    NUMBER-MARKS O. OCTAL OFFSET ONLY OUT PAGE PFA PICK PREVIOUS QUOTED RETURN-KEY ROLL RUBOUT-KEY \
    S->D S>D SHIFT SP@ TASK TEXT THRU TOGGLE TRIAD TRUE TUCK U* U/MOD U< U> USER VLIST WORD ['] \\S";

/// The names that f83.txt makes.
pub static NAMES_F83: &[u8] =
    b"! \" #LINE #OUT #TIMES ' (\") (+LOOP) (.) (D.) (DO) (LOOP) (S (U.) (UD.) *D +! +THRU , ,\" --> \
    -DUP -ROT . .\" .ID .R /LOOP /STRING 0<> 2>R 2R> 3DUP 4DUP 8* ; ;CODE ;S <= <BUILDS <CMOVE >= \
    >LINK >NAME >TYPE ? ?CR ?DNEGATE ?ENOUGH ?LEAVE ?LINE ?LOADED ?NEGATE ?STACK ALIGN ALSO ASCII \
    ASSOCIATIVE: B/BUF B/SCR BEEP BELL BETWEEN BLANK BLANKS BLOCK BODY> BOUNDS BS BUFFER C! C/L C@ \
    CASE: CMOVE CODE COMPARE CONTROL CR CRASH CRESET CRLF CSET CTOGGLE D. D.R D2* D> D>S DARK DEFER \
    DEFINED DIALECT-ON DIGIT DLITERAL DPL DUP>R EMIT END ENDIF ERASE EVEN FALSE FILL FIND FLIP FROM \
    IS K KEY L/SCR L>NAME LABEL LATEST LINK> LIST LMARGIN LOAD M* M+ M/ M/MOD MANY MOVE MU/MOD \
    MYSELF N>LINK NAME> NIP NUMBER NUMBER-MARKS NUMBER? OCTAL OFFSET OK ONLY OPEN ORDER PAGE PARSE \
    PARSE-WORD PAUSE PERFORM PLACE PREVIOUS QUOTED R# RECURSIVE RETURN-KEY RMARGIN RUBOUT-KEY S->D \
    S>D SCAN SEAL SINGLE SKIP SP@ SPACE SPACES TASK THRU TIMES TOGGLE TRAVERSE TRUE TUCK TYPE U* U*D \
    U. U.R U2/ U<= U> U>= UD. UD.R UPC UPPER USER VLIST WIDTH WITHIN ['] [COMPILE] \\S";

/// The names that poly.txt makes.
pub static NAMES_POLY: &[u8] =
    b"! \" ' 'S (\") (+LOOP) (+ROUND) (/ROUND) (BOUND) (DO) (DOWN) (ENTER) (LEFT) (LOOP) (ONCE) \
    (ROUND) */ */MOD +! +LOOP , ,\" ,C --> -DUP -ROT -TEXT / /LOOP /MOD /STRING 0< 0<> 0= 0> 1+! 1-! \
    ; ;CODE ;S < <> <BUILDS <CMOVE = > >< >TYPE ?LOADED ?STACK @EXECUTE ACTIVATE ALSO ASCII AT-XY \
    B/BUF B/SCR BACKGROUND BLANKS BLOCK BOUNDS BUFFER BUILD C! C/L C@ CATCH CCONSTANT CHARS/BLOCK \
    CMOVE CODE CTR CVARIABLE D0= D< D= DEFER DIALECT-ON DO DPL DU< EMPTY END ENDIF ERASE FALSE FH \
    FILL FLD FORGET GET GRAB H HALT HERE I' INPUT IS K KEY L/S LEAVE LIST LOAD LOOP M* M*/ M+ M/ \
    M/MOD MOD MOVE MS MYSELF NIP NOT NUMBER NUMBER-MARKS OCTAL OFFSET ONLY OUTPUT PAGE PARSE PAUSE \
    PERFORM PLACE PREVIOUS QUOTED R# RDROP RELEASE RETURN-KEY RUBOUT-KEY S->D S>D SLEEP STOP \
    STRAIGHT STRING TAB TASK TERMINAL TEXT THROW THRU TRUE TUCK U* U/MOD U< U> USER WAKE WITHIN ['] \
    \\S";

/// The screens of fig.txt.
pub static SCREENS_FIG: [u16; 28] = [
    1001, 1002, 1003, 1004, 1005, 1006, 1007, 1008, 1009, 1010, 1011, 1012, 1013, 1014, 1015, 1016,
    1017, 1018, 1019, 1020, 1095, 1096, 1097, 1098, 1099, 1105, 1106, 1107,
];

/// The screens of f79.txt.
pub static SCREENS_F79: [u16; 20] = [
    1021, 1022, 1023, 1024, 1025, 1026, 1027, 1028, 1029, 1030, 1031, 1032, 1033, 1034, 1035, 1036,
    1037, 1038, 1039, 1040,
];

/// The screens of f83.txt.
pub static SCREENS_F83: [u16; 20] = [
    1041, 1042, 1043, 1044, 1045, 1046, 1047, 1048, 1049, 1050, 1051, 1052, 1053, 1054, 1055, 1056,
    1057, 1058, 1059, 1060,
];

/// The screens of poly.txt.
pub static SCREENS_POLY: [u16; 27] = [
    1061, 1062, 1063, 1064, 1065, 1066, 1067, 1068, 1069, 1070, 1071, 1072, 1073, 1074, 1075, 1076,
    1077, 1078, 1079, 1080, 1081, 1082, 1083, 1111, 1112, 1113, 1114,
];

/// The screens of mms.txt.
pub static SCREENS_MMS: [u16; 4] = [1088, 1089, 1090, 1101];

/// The screens of mvp.txt.
pub static SCREENS_MVP: [u16; 3] = [1102, 1103, 1104];

/// The screens of hs.txt.
pub static SCREENS_HS: [u16; 2] = [1084, 1085];

/// The screens of volks.txt.
pub static SCREENS_VOLKS: [u16; 3] = [1091, 1092, 1100];

/// The screens of rsc.txt.
pub static SCREENS_RSC: [u16; 2] = [1093, 1094];

/// What fig.txt leaves out, and why.
pub static LEFT_OUT_FIG: [LeftOut; 5] = [
    LeftOut {
        why: b"that is inside fig-FORTH: no such place here",
        words: b"+ORIGIN FIRST LIMIT USE PREV R/W +BUF (FIND) BLOCK-READ BLOCK-WRITE",
    },
    LeftOut {
        why: b"no stack in memory: write PICK, DEPTH",
        words: b"S0 R0 RP!",
    },
    LeftOut {
        why: b"no ports here: define this word after the dialect",
        words: b"P@ P!",
    },
    LeftOut {
        why: b"no assembler here: write the word with :",
        words: b"ASSEMBLER (;CODE) NEXT PUSH PUT POP",
    },
    LeftOut {
        why: b"put the second disk's first screen into OFFSET",
        words: b"DR1",
    },
];

/// What f79.txt leaves out, and why.
pub static LEFT_OUT_F79: [LeftOut; 4] = [
    LeftOut {
        why: b"no assembler here: write it with :",
        words: b"ASSEMBLER END-CODE",
    },
    LeftOut {
        why: b"no ports here: define this word after the dialect",
        words: b"P@ P! PC@ PC!",
    },
    LeftOut {
        why: b"no stack in memory: write DEPTH",
        words: b"S0",
    },
    LeftOut {
        why: b"not in this dialect: define it after the dialect",
        words: b"-' ;: MASK ROTATE SET !BITS @BITS -MATCH >MOVE< LINE CONTINUED CUR LINELOAD EDITOR REMEMBER \
    WHERE \\LOOP IFTRUE OTHERWISE IFEND CHAIN",
    },
];

/// What f83.txt leaves out, and why.
pub static LEFT_OUT_F83: [LeftOut; 9] = [
    LeftOut {
        why: b"no assembler here: write it with :",
        words: b"END-CODE ASSEMBLER ;C UNNEST NEST",
    },
    LeftOut {
        why: b"no ports here: define this word after the dialect",
        words: b"P@ P! PC@ PC!",
    },
    LeftOut {
        why: b"no stack in memory: write PICK, DEPTH",
        words: b"SP0 RP0 RP@ RP! SP!",
    },
    LeftOut {
        why: b"one file at a time: import it first",
        words: b"FILE FILE? OPEN-FILE CREATE-FILE CLOSE DEFAULT IN-FILE DIR DOS B/FCB B/REC CAPACITY",
    },
    LeftOut {
        why: b"one task here: call its word from your main loop",
        words: b"TASK: BACKGROUND: ACTIVATE SLEEP WAKE STOP LOCAL UP ENTRY MULTITASKING",
    },
    LeftOut {
        why: b"the screens are text here: see forth83 text",
        words: b"EDITOR PRINT PRINTING JOIN SPLIT",
    },
    LeftOut {
        why: b"that is inside F83: define it after the dialect",
        words: b"#BUFFERS #VOCS 'TIB (;CODE) >VIEW ?<MARK ?<RESOLVE ?>MARK ?>RESOLVE ?CONDITION ?MISSING ?ERROR \
    ?UPPERCASE AVOC BUFFER# COMP CONVEY DEBUG UNBUG ESTABLISH FIRST HASH HELLO HIDE HOPPED INITIAL \
    LINK MISSING PRIOR ROOT RUN SAVE-SYSTEM STATUS TRIM VIEW# VOCS WHERE ?CSP FILES SHOW LARGEST \
    LENGTH LIMIT SOURCE CSP HIDDEN >NEXT",
    },
    LeftOut {
        why: b"loops differ inside: write [COMPILE] DO",
        words: b"(?DO)",
    },
    LeftOut {
        why: b"write FORGET TASK : TASK ; for it",
        words: b"EMPTY",
    },
];

/// What poly.txt leaves out, and why.
pub static LEFT_OUT_POLY: [LeftOut; 4] = [
    LeftOut {
        why: b"no assembler here: write it with :",
        words: b"ASSEMBLER END-CODE",
    },
    LeftOut {
        why: b"no stack in memory: write DEPTH",
        words: b"S0",
    },
    LeftOut {
        why: b"one task here: call its word from your main loop",
        words: b"FACILITY HIS OPERATOR TASK:",
    },
    LeftOut {
        why: b"the editor here has no vocabulary: type ED or PUT",
        words: b"EDITOR",
    },
];

/// What mms.txt leaves out, and why.
pub static LEFT_OUT_MMS: [LeftOut; 7] = [
    LeftOut {
        why: b"no strings of MMSFORTH here: use COUNT, CMOVE, TYPE",
        words: b"$VARIABLE $! $. LEFT$ RIGHT$ MID$ LEN ASC",
    },
    LeftOut {
        why: b"no such keyboard here: use KEY, or QUERY and NUMBER",
        words: b"IN# INKEY",
    },
    LeftOut {
        why: b"no ports here: LOAD 1086 of screens/dialects/ports.txt",
        words: b"INP OUTP",
    },
    LeftOut {
        why: b"no such graphics here: define it after this prelude",
        words: b"ECLS SET RESET POINT",
    },
    LeftOut {
        why: b"no printer here: leave it out, or define it",
        words: b"CRT PCRT PRINT",
    },
    LeftOut {
        why: b"no machine code here: write the word with :",
        words: b"XCALL",
    },
    LeftOut {
        why: b"not in this prelude: define it after the prelude",
        words: b"ACASE RN1 2CARRAY",
    },
];

/// What mvp.txt leaves out, and why.
pub static LEFT_OUT_MVP: [LeftOut; 4] = [
    LeftOut {
        why: b"no stack in memory: write PICK or DEPTH",
        words: b"'S RP@ RP! R0 SP!",
    },
    LeftOut {
        why: b"the editor here: type ED, or PUT for one line",
        words: b"PP CLEAR CHANGE",
    },
    LeftOut {
        why: b"that is inside MVP-FORTH: no such place here",
        words: b"FIRST LIMIT PREV USE UP LIT 0BRANCH 'ABORT 'EMIT 'KEY 'CR 'PAGE",
    },
    LeftOut {
        why: b"not in this prelude: define it after the prelude",
        words: b".SL .SR .SS SMUDGE ENCLOSE ?PAIRS",
    },
];

/// What hs.txt leaves out, and why.
pub static LEFT_OUT_HS: [LeftOut; 2] = [
    LeftOut {
        why: b"no segments here: define it after the prelude",
        words: b"@L !L C@L C!L",
    },
    LeftOut {
        why: b"one file at a time: import it first, then LOAD",
        words: b"FLOAD",
    },
];

/// What volks.txt leaves out, and why.
pub static LEFT_OUT_VOLKS: [LeftOut; 4] = [
    LeftOut {
        why: b"one task here: call its word from your main loop",
        words: b"TASK ACTIVATE PASS MULTITASK SINGLETASK TASKS LOCK UNLOCK RENDEZVOUS UP@ UP!",
    },
    LeftOut {
        why: b"one file at a time: import it first",
        words: b"USE MAKEFILE LOADFILE BLK/DRV",
    },
    LeftOut {
        why: b"there is no heap here: leave the word out",
        words: b"HEAP HALLOT",
    },
    LeftOut {
        why: b"not in this prelude: define it after the prelude",
        words: b"-ROLL AT? C/ROW CAPITALIZE ATTACH COL CREATE: DEL ERROR\" HIDE L/S PUSH RESTRICT REVEAL ROW \
    .NAME",
    },
];

/// What rsc.txt leaves out, and why.
pub static LEFT_OUT_RSC: [LeftOut; 2] = [
    LeftOut {
        why: b"no chip of that kind here: define it after the prelude",
        words: b"ADMP BANKEEC! BANKEXECUTE EEC! INTFLG INTVEC IRQVEC MEMTOP NMIVEC XOFF",
    },
    LeftOut {
        why: b"the screens are a file here: import it",
        words: b"DREAD DWRITE FORMAT SELECT SOURCE",
    },
];

/// A sum of each screen of screens/dialects, ascending.
pub static SUMS: [u64; 114] = [
    0x0095b8e93eab9e6c,
    0x0432e445b50fa00c,
    0x05f0c9a1be197fae,
    0x07d02c0e222b0ca8,
    0x0d0aad375ce1f26f,
    0x0e20410c993cd86c,
    0x0e92fbbece2024ac,
    0x0ef2470b436c009b,
    0x0f95a95b00c5dc44,
    0x115c25d9e081e21b,
    0x124f51654df35e02,
    0x19120a66522ba045,
    0x1b4f378ecba0b30b,
    0x1b7a27b498567104,
    0x1bb7cb6cb3058771,
    0x1e7ec75cb2f10989,
    0x228ca9b970b5af10,
    0x26a59d0d67441e2a,
    0x2c7fa9a277d2a898,
    0x3161827cd7e75905,
    0x322ae1521e8ed792,
    0x3359aa31947df926,
    0x34e1236d2a605607,
    0x35f746f8abda292c,
    0x3bf4d074d9693316,
    0x3d83e3053df966e0,
    0x3e1bb5ddc2192ca6,
    0x4007a1faa6078005,
    0x4086525bfc22085a,
    0x416e2fae9ac32524,
    0x46c42163bce967f3,
    0x4768d29bf4e43ca5,
    0x4b447a405f0ff254,
    0x4cf7898b26fbf6ad,
    0x5026fd53700539cd,
    0x509c1ae45a38fbc7,
    0x56017aadb46f7b41,
    0x5a46541a72bc2fbc,
    0x5a6ccad90edd0ac1,
    0x5b282ca7701a9cce,
    0x5b9f6adc78ce5c60,
    0x5e05fe1ef19c9ed7,
    0x61f15537efa322dd,
    0x626ae0235234ffa2,
    0x62b33a1ffca8a25f,
    0x68281971a9c82f1c,
    0x6a0acae4523cf0bf,
    0x6b6873e28f338d72,
    0x6bd756498cdef164,
    0x707b31a9733d51df,
    0x758333a68a6507de,
    0x78aed05201a7e119,
    0x7957babff8f819d3,
    0x83171f82935e211c,
    0x83f97c89d709eb41,
    0x862ac4d7f5f69516,
    0x8671bf31fcb84d7f,
    0x86785ecf9c142d73,
    0x8828e1a91a3b0b7d,
    0x895c188ac897e042,
    0x898bd6f05d120ec8,
    0x8c421366a206fe24,
    0x8c6345108e287173,
    0x8cc0b1db85cbb190,
    0x90368086713acb01,
    0x9066aa7528f618f4,
    0x9068fe7dfad008c9,
    0x91cddf88383b59f5,
    0x97c19a124ffe3ed3,
    0x9a076fb04c3c4223,
    0x9d2c241c59c82ae0,
    0x9e3807366e54ef53,
    0x9fbd4bc9e17d577b,
    0xa4679210aa38bf83,
    0xa693d09f808652e4,
    0xa9b67ff242efaeb9,
    0xaaf6cec125d1da92,
    0xac2c12799d024d86,
    0xb3123fd793e87245,
    0xb3ee6e6c23b0c8a4,
    0xb43370d998943930,
    0xb4ac084b1843ef79,
    0xba854e9c74dd53d5,
    0xbd93e3e0940f00b4,
    0xc658a9f727ef4805,
    0xcaeaa84321dc0155,
    0xcd726a0a57efc2e6,
    0xce1eb830863b69c4,
    0xce6afd406cf50f87,
    0xceeab247d15adf71,
    0xcef45dcc3ab6a905,
    0xd5d8904e973ce024,
    0xd68b30afd409bd22,
    0xd712d97ebe175795,
    0xda49cd5fd0bde3e2,
    0xdaef3a380e32ebe9,
    0xdc436a3ce51841d2,
    0xdeb4da5a6b4406f7,
    0xded4951b890af4f9,
    0xe029a40e9cee76d5,
    0xe1f1306762256ab7,
    0xe59c782715aa2f70,
    0xe7c207a4d7dda8e9,
    0xea535d4f46d2f167,
    0xea889fc76af16785,
    0xec37d0483455e416,
    0xeeb67f4f37a41ed5,
    0xf4eb55549b52bb37,
    0xfadbc4f8b1bdcf54,
    0xfaf10b67daac5c37,
    0xfb05122ce72b9dc9,
    0xfc35809851e34603,
    0xff1efa53494bd046,
    0xfff43d2a5b81f31c,
];
