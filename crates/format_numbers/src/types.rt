// The codes of the types.
ghost use Rattle.std.specs.Prelude.{◌≡◌, ◌==◌, ◌∷◌, [], ℕ};
ghost use Rattle.std.specs.List.{list_any};
ghost use Rattle.ipc_message.specs.Header.{supported_codes};
ghost use Rattle.ipc_message.specs.declared.type_codes.TheConstants.{NONE, NULL, INT, FLOATING_POINT, BINARY, UTF8, BOOL, DECIMAL, DATE, TIME, TIMESTAMP, INTERVAL, LIST, STRUCT, UNION, FIXED_SIZE_BINARY, FIXED_SIZE_LIST, MAP, DURATION, LARGE_BINARY, LARGE_UTF8, LARGE_LIST, RUN_END_ENCODED, BINARY_VIEW, UTF8_VIEW, LIST_VIEW, LARGE_LIST_VIEW};

/// The code of each type (Schema.fbs, the union Type).
pub fn codes_of_types()
    ensures none { NONE ≡ 0 }
    ensures null { NULL ≡ 1 }
    ensures int { INT ≡ 2 }
    ensures floating_point { FLOATING_POINT ≡ 3 }
    ensures binary { BINARY ≡ 4 }
    ensures utf8 { UTF8 ≡ 5 }
    ensures booleans { BOOL ≡ 6 }
    ensures decimal { DECIMAL ≡ 7 }
    ensures date { DATE ≡ 8 }
    ensures time { TIME ≡ 9 }
    ensures timestamp { TIMESTAMP ≡ 10 }
    ensures interval { INTERVAL ≡ 11 }
    ensures list { LIST ≡ 12 }
    ensures structs { STRUCT ≡ 13 }
    ensures unions { UNION ≡ 14 }
    ensures fixed_size_binary { FIXED_SIZE_BINARY ≡ 15 }
    ensures fixed_size_list { FIXED_SIZE_LIST ≡ 16 }
    ensures maps { MAP ≡ 17 }
    ensures duration { DURATION ≡ 18 }
    ensures large_binary { LARGE_BINARY ≡ 19 }
    ensures large_utf8 { LARGE_UTF8 ≡ 20 }
    ensures large_list { LARGE_LIST ≡ 21 }
    ensures run_end_encoded { RUN_END_ENCODED ≡ 22 }
    ensures binary_view { BINARY_VIEW ≡ 23 }
    ensures utf8_view { UTF8_VIEW ≡ 24 }
    ensures list_view { LIST_VIEW ≡ 25 }
    ensures large_list_view { LARGE_LIST_VIEW ≡ 26 }
{}

/// The codes that a stream may name: nulls, integers, binaries, texts, booleans, dates, timestamps, lists, structs, fixed-size binaries and lists, and the
/// large binaries, texts and lists.
pub fn codes_of_supported_types()
    ensures { (code : ℕ) → supported_codes code ≡ list_any (λ n. n == code) (1 ∷ 2 ∷ 4 ∷ 5 ∷ 6 ∷ 8 ∷ 10 ∷ 12 ∷ 13 ∷ 15 ∷ 16 ∷ 19 ∷ 20 ∷ 21 ∷ []) }
{}
