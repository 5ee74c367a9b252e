//! Laws of the faults.

ghost use Rattle.std.specs.Prelude.{◌≡◌};
ghost use Rattle.machine_parts.specs.declared.faults.TheConstants.{DATA_UNDERFLOW, DATA_OVERFLOW, RETURN_UNDERFLOW, RETURN_OVERFLOW, DIVISION, UNKNOWN_CODE, NO_BLOCK, DICTIONARY_FULL, READ_FAILED, WRITE_FAILED, CHAIN_TOO_LONG, BAD_BASE, NOT_FOUND, BAD_LENGTH, BLOCK_ZERO, ABORTED};

/// The numbers of the faults.
pub fn fault_law()
    ensures data_underflow { DATA_UNDERFLOW ≡ 1 }
    ensures data_overflow { DATA_OVERFLOW ≡ 2 }
    ensures return_underflow { RETURN_UNDERFLOW ≡ 3 }
    ensures return_overflow { RETURN_OVERFLOW ≡ 4 }
    ensures division { DIVISION ≡ 5 }
    ensures unknown_code { UNKNOWN_CODE ≡ 6 }
    ensures no_block { NO_BLOCK ≡ 7 }
    ensures dictionary_full { DICTIONARY_FULL ≡ 8 }
    ensures read_failed { READ_FAILED ≡ 9 }
    ensures write_failed { WRITE_FAILED ≡ 10 }
    ensures chain_too_long { CHAIN_TOO_LONG ≡ 11 }
    ensures bad_base { BAD_BASE ≡ 12 }
    ensures not_found { NOT_FOUND ≡ 13 }
    ensures bad_length { BAD_LENGTH ≡ 15 }
    ensures block_zero { BLOCK_ZERO ≡ 16 }
    ensures aborted { ABORTED ≡ 17 }
{}
