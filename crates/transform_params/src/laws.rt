//! A law of the definitions.

ghost use Rattle.std.specs.Prelude.{◌≡◌, ◌*◌, ◌++◌, List, ℕ, Ok};
ghost use Rattle.bit_codes.specs.Bits.{cursor_at};
ghost use Rattle.field_rows.specs.Rows.{read};
ghost use Rattle.transform_params.specs.Params.{Params, reason_of, params_rows};
ghost use Rattle.transform_params.specs.ParameterFields.{params_bytes, byte_length, AreLawfulParams};

/// What is written of parameters that break no rule is read back as the same parameters, whatever follows.
pub fn written_is_read_back()
    ensures { (p : Params) (more : List ℕ) → AreLawfulParams p
        → read reason_of params_rows (cursor_at (params_bytes p ++ more) 0)
        ≡ Ok (p, cursor_at (params_bytes p ++ more) (8 * byte_length p)) }
{}
