//! The sources of a whole Forth-83 system: screens 1 to 20 of a block file, 16 lines of at most 64 characters each.

/// The text of the screens. The first line of each is a title with the screen's number.
pub const TEXT: &str = r#"(  1  Control: threads and loops )
  5 PRIM EXIT          ( R: a -- )
  6 PRIM (LIT)         ( -- x )
  7 PRIM BRANCH        ( -- )
  8 PRIM ?BRANCH       ( f -- )
  9 PRIM (DO)       ( limit start --   R: -- leave limit start )
 10 PRIM (LOOP)        ( R: leave limit x -- leave limit x+1 )
 11 PRIM (+LOOP)  ( n --   R: leave limit x -- leave limit x+n )
 12 PRIM LEAVE         ( R: leave limit x -- )
 13 PRIM I             ( -- x   R: x -- x )
 14 PRIM J             ( -- x   R: x a b c -- x a b c )
 15 PRIM EXECUTE       ( w -- )
 16 PRIM (.")          ( -- )
 17 PRIM (ABORT")      ( f -- )
 18 PRIM (DOES>)       ( R: a -- )

(  2  Control: compiling, the return stack, the end )
 19 PRIM COMPILE       ( -- )
 20 PRIM >R            ( x --   R: -- x )
 21 PRIM R>            ( -- x   R: x -- )
 22 PRIM R@            ( -- x   R: x -- x )
 23 PRIM BYE           ( -- )
 24 PRIM RCLEAR        ( R: .. -- )
 25 PRIM SCLEAR        ( .. -- )
 26 PRIM (FAULT)       ( u -- )
 27 PRIM NOOP          ( -- )






(  3  The data stack )
 32 PRIM DUP           ( x -- x x )
 33 PRIM DROP          ( x -- )
 34 PRIM SWAP          ( x y -- y x )
 35 PRIM OVER          ( x y -- x y x )
 36 PRIM ROT           ( x y z -- y z x )
 37 PRIM PICK          ( u -- x )
 38 PRIM ROLL          ( u -- )
 39 PRIM ?DUP          ( 0 -- 0, x -- x x )
 40 PRIM DEPTH         ( -- u )
 41 PRIM 2DROP         ( x y -- )
 42 PRIM 2DUP          ( x y -- x y x y )
 43 PRIM 2OVER         ( a b c d -- a b c d a b )
 44 PRIM 2ROT          ( a b c d e f -- c d e f a b )
 45 PRIM 2SWAP         ( a b c d -- c d a b )

(  4  Cells: arithmetic )
 48 PRIM +             ( x y -- z )
 49 PRIM -             ( x y -- z )
 50 PRIM *             ( x y -- z )
 51 PRIM /             ( n1 n2 -- quot )
 52 PRIM MOD           ( n1 n2 -- rem )
 53 PRIM /MOD          ( n1 n2 -- rem quot )
 54 PRIM */            ( n1 n2 n3 -- quot )
 55 PRIM */MOD         ( n1 n2 n3 -- rem quot )
 56 PRIM 1+            ( x -- y )
 57 PRIM 1-            ( x -- y )
 58 PRIM 2+            ( x -- y )
 59 PRIM 2-            ( x -- y )
 60 PRIM 2*            ( x -- y )
 61 PRIM 2/            ( n -- y )

(  5  Cells: signs, the lesser and the greater, bits )
 62 PRIM NEGATE        ( n -- x )
 63 PRIM ABS           ( n -- x )
 64 PRIM MIN           ( n1 n2 -- n )
 65 PRIM MAX           ( n1 n2 -- n )
 66 PRIM AND           ( x y -- z )
 67 PRIM OR            ( x y -- z )
 68 PRIM XOR           ( x y -- z )
 69 PRIM NOT           ( x -- y )







(  6  Cells: comparisons and products )
 70 PRIM =             ( x y -- t )
 71 PRIM <>            ( x y -- t )
 72 PRIM <             ( n1 n2 -- t )
 73 PRIM >             ( n1 n2 -- t )
 74 PRIM U<            ( u1 u2 -- t )
 75 PRIM 0=            ( x -- t )
 76 PRIM 0<            ( n -- t )
 77 PRIM 0>            ( n -- t )
 78 PRIM UM*           ( u1 u2 -- ud )
 79 PRIM UM/MOD        ( ud u -- rem quot )





(  7  Doubles )
 80 PRIM D+            ( d1 d2 -- d )
 81 PRIM D-            ( d1 d2 -- d )
 82 PRIM DNEGATE       ( d -- d2 )
 83 PRIM DABS          ( d -- d2 )
 84 PRIM D2/           ( d -- d2 )
 85 PRIM DMIN          ( d1 d2 -- d )
 86 PRIM DMAX          ( d1 d2 -- d )
 87 PRIM D=            ( d1 d2 -- t )
 88 PRIM D0=           ( d -- t )
 89 PRIM D<            ( d1 d2 -- t )
 90 PRIM DU<           ( ud1 ud2 -- t )




(  8  Memory )
 96 PRIM @             ( a -- x )
 97 PRIM !             ( x a -- )
 98 PRIM C@            ( a -- c )
 99 PRIM C!            ( c a -- )
100 PRIM +!            ( x a -- )
101 PRIM 2@            ( a -- d )
102 PRIM 2!            ( d a -- )
103 PRIM CMOVE         ( a1 a2 u -- )
104 PRIM CMOVE>        ( a1 a2 u -- )
105 PRIM FILL          ( a u c -- )
106 PRIM COUNT         ( a -- a+1 c )
107 PRIM -TRAILING     ( a u -- a u2 )



(  9  Blocks and devices )
112 PRIM BLOCK         ( u -- a )
113 PRIM BUFFER        ( u -- a )
114 PRIM UPDATE        ( -- )
115 PRIM SAVE-BUFFERS  ( -- )
116 PRIM FLUSH         ( -- )
117 PRIM EMPTY-BUFFERS ( -- )
118 PRIM KEY           ( -- c )
119 PRIM EXPECT        ( a u -- )
120 PRIM EMIT          ( c -- )
121 PRIM TYPE          ( a u -- )





( 10  Numbers as text )
128 PRIM <#            ( -- )
129 PRIM #             ( ud -- ud2 )
130 PRIM #S            ( ud -- 0 0 )
131 PRIM #>            ( d -- a u )
132 PRIM HOLD          ( c -- )
133 PRIM SIGN          ( n -- )
134 PRIM CONVERT       ( ud a -- ud2 a2 )








( 11  The input stream and the dictionary )
144 PRIM WORD          ( c -- a )
145 PRIM (             ( -- )         IMMEDIATE
146 PRIM .(            ( -- )         IMMEDIATE
147 PRIM FIND          ( a -- a 0, w -1, w 1 )
148 PRIM '             ( -- w )
149 PRIM (INTERPRET)   ( -- 0, w 1, -1, n -1, d -1 )
150 PRIM CREATE        ( -- )
151 PRIM IMMEDIATE     ( -- )
152 PRIM FORGET        ( -- )
153 PRIM >BODY         ( w -- w+2 )
154 PRIM HERE          ( -- a )
155 PRIM PAD           ( -- a )
156 PRIM VOCABULARY    ( -- )
157 PRIM DEFINITIONS   ( -- )

( 12  Compiling: definitions and literals )
168 PRIM :             ( -- )
169 PRIM ;             ( -- )         IMMEDIATE
170 PRIM [             ( -- )         IMMEDIATE
171 PRIM ]             ( -- )
172 PRIM ,             ( x -- )
173 PRIM C,            ( c -- )
174 PRIM ALLOT         ( n -- )
175 PRIM LITERAL       ( x -- )       IMMEDIATE
176 PRIM [']           ( -- )         IMMEDIATE
177 PRIM [COMPILE]     ( -- )         IMMEDIATE
178 PRIM DOES>         ( -- )         IMMEDIATE




( 13  Compiling: structures )
179 PRIM IF            ( -- a )       IMMEDIATE
180 PRIM ELSE          ( a -- a2 )    IMMEDIATE
181 PRIM THEN          ( a -- )       IMMEDIATE
182 PRIM BEGIN         ( -- a )       IMMEDIATE
183 PRIM UNTIL         ( a -- )       IMMEDIATE
184 PRIM WHILE         ( -- a )       IMMEDIATE
185 PRIM REPEAT        ( a b -- )     IMMEDIATE
186 PRIM AGAIN         ( a -- )       IMMEDIATE
187 PRIM DO            ( -- a b )     IMMEDIATE
188 PRIM LOOP          ( a b -- )     IMMEDIATE
189 PRIM +LOOP         ( a b -- )     IMMEDIATE




( 14  Compiling: texts and defining words; marks )
190 PRIM ."            ( -- )         IMMEDIATE
191 PRIM ABORT"        ( -- )         IMMEDIATE
192 PRIM CONSTANT      ( x -- )
193 PRIM VARIABLE      ( -- )
194 PRIM <MARK         ( -- a )
195 PRIM <RESOLVE      ( a -- )
196 PRIM >MARK         ( -- a )
197 PRIM >RESOLVE      ( a -- )







( 15  The line editor )
200 PRIM LINE          ( n -- a 64 )
201 PRIM PUT           ( n -- )
202 PRIM INSERT        ( n -- )
203 PRIM DELETE        ( n -- )
204 PRIM WIPE          ( -- )










( 16  The system's cells, and the blank )
 16 CONSTANT STATE               18 CONSTANT BASE
 20 CONSTANT >IN                 22 CONSTANT BLK
 24 CONSTANT #TIB                26 CONSTANT SPAN
 28 CONSTANT DP                  30 CONSTANT LAST
 32 CONSTANT CONTEXT             34 CONSTANT CURRENT
 36 CONSTANT HLD                 38 CONSTANT SCR
 40 CONSTANT FAULT               42 CONSTANT FORTH-VOC
 52 CONSTANT VOC-LINK            54 CONSTANT FENCE
128 CONSTANT TIB                 32 CONSTANT BL






( 17  Output, and numbers shown )
: CR ( -- ) 10 EMIT ;
: SPACE ( -- ) 32 EMIT ;
: SPACES ( n -- ) 0 MAX ?DUP IF 0 DO SPACE LOOP THEN ;
: DECIMAL ( -- ) 10 BASE ! ;
: HEX ( -- ) 16 BASE ! ;
: . ( n -- ) DUP ABS 0 <# #S ROT SIGN #> TYPE SPACE ;
: U. ( u -- ) 0 <# #S #> TYPE SPACE ;
: D. ( d -- ) SWAP OVER DABS <# #S ROT SIGN #> TYPE SPACE ;
: .R >R DUP ABS 0 <# #S ROT SIGN #> R> OVER - SPACES TYPE ;
: D.R ( d n -- ) >R SWAP OVER DABS <# #S ROT SIGN #>
  R> OVER - SPACES TYPE ;
: ? ( a -- ) @ . ;



( 18  Memory, vocabularies, defining words )
: ERASE ( a u -- ) 0 FILL ;
: BLANK ( a u -- ) 32 FILL ;
: FORTH ( -- ) FORTH-VOC CONTEXT ! ;
: FORTH-83 ( -- ) ;
: 2CONSTANT ( d -- ) CREATE , , DOES> 2@ ;
: 2VARIABLE ( -- ) CREATE 0 , 0 , ;









( 19  The interpreter, loading, listing )
: QUERY TIB 80 EXPECT SPAN @ #TIB ! 0 BLK ! 0 >IN ! ;
: INTERPRET BEGIN (INTERPRET) ?DUP WHILE
  0> IF EXECUTE THEN REPEAT ;
: LOAD ( u -- ) ?DUP 0= IF 16 (FAULT) THEN BLK @ >R >IN @ >R
  BLK ! 0 >IN ! INTERPRET R> >IN ! R> BLK ! ;
: THRU ( u1 u2 -- ) 1+ SWAP DO I LOAD LOOP ;
: LIST ( u -- ) SCR ! 16 0 DO I 2 .R SPACE
  I LINE -TRAILING TYPE CR LOOP ;







( 20  The outermost words )
: QUIT ( -- ) 0 BLK ! 0 STATE ! RCLEAR BEGIN QUERY INTERPRET
  STATE @ 0= IF ."  ok" THEN CR AGAIN ;
: ABORT ( .. -- ) SCLEAR QUIT ;
: FAULTED ( u -- ) DECIMAL ."  fault " U. CR QUIT ;
: COLD ( -- ) ['] FAULTED >BODY FAULT ! QUIT ;
BOOT COLD









"#;
