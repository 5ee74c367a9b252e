//! Laws of memory.

ghost use Rattle.std.specs.Prelude.{◌≡◌, ℕ, ◌+◌, ◌*◌};
ghost use Rattle.memory.specs.Bytes.{IsCount, limit_of};
ghost use Rattle.memory.specs.declared.limit.TheConstants.{GREATEST_LIMIT};
ghost use Rattle.memory.specs.declared.mirrored.TheConstants.{MIRRORED};
ghost use Rattle.memory.specs.declared.system.TheConstants.{STATE, BASE, TO_IN, BLK, NUMBER_TIB, SPAN, DP, LAST, CONTEXT, CURRENT, HLD, SCR, FAULT, FORTH_VOC, VOC_LINK, FENCE, RUNTIME_CELLS, TIB};

/// Where the system's cells are, and the terminal's buffer.
pub fn system_law()
    ensures state { STATE ≡ 16 }
    ensures base { BASE ≡ 18 }
    ensures to_in { TO_IN ≡ 20 }
    ensures blk { BLK ≡ 22 }
    ensures number_tib { NUMBER_TIB ≡ 24 }
    ensures span { SPAN ≡ 26 }
    ensures dp { DP ≡ 28 }
    ensures last { LAST ≡ 30 }
    ensures context { CONTEXT ≡ 32 }
    ensures current { CURRENT ≡ 34 }
    ensures hld { HLD ≡ 36 }
    ensures scr { SCR ≡ 38 }
    ensures fault { FAULT ≡ 40 }
    ensures forth_voc { FORTH_VOC ≡ 42 }
    ensures voc_link { VOC_LINK ≡ 52 }
    ensures fence { FENCE ≡ 54 }
    ensures runtime_cells { RUNTIME_CELLS ≡ 64 }
    ensures tib { TIB ≡ 128 }
{}

/// How many bytes are mirrored.
pub fn mirrored_law()
    ensures { MIRRORED ≡ 16 }
{}

/// Where the block buffers begin: two at 63,488, which is the greatest limit, four at 61,440, sixteen at 49,152. They and
/// what is below them are all of memory.
pub fn limit_law()
    ensures greatest { GREATEST_LIMIT ≡ 63488 }
    ensures two { limit_of 2 ≡ 63488 }
    ensures four { limit_of 4 ≡ 61440 }
    ensures sixteen { limit_of 16 ≡ 49152 }
    ensures whole { (count : ℕ) → IsCount count → limit_of count + 1024 * count ≡ 65536 }
{}
