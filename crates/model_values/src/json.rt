//! Which trees of JSON stand for values. The law is the contract of a function that does nothing.

ghost use Rattle.std.specs.Prelude.{◌≡◌, ◌↔◌, slice_get, Some, Ok, Err, false};
ghost use Rattle.serde_json.specs.Data.{Data};
ghost use Rattle.model_values.specs.Value.{Val};
ghost use Rattle.model_values.specs.Json.{written_value, is_source_value, read_value, offences};
ghost use Rattle.model_values.specs.declared.value_why.ValueWhy.{ValueWhy};
ghost use Rattle.model_values.specs.declared.value_why.ValueWhy.TheVariants.{TooBig};

/// A tree stands for no value exactly where a part of it doesn't, and the first such part tells why. Its size is asked last.
pub fn values_are_refused_at_their_first_offence()
    ensures written { (d : Data) (e : ValueWhy) → (written_value d ≡ Err e) ↔ (slice_get (offences d) 0 ≡ Some e) }
    ensures read { (d : Data) (e : ValueWhy) → slice_get (offences d) 0 ≡ Some e → read_value d ≡ Err e }
    ensures size { (d : Data) (v : Val) → written_value d ≡ Ok v → (read_value d ≡ Err TooBig) ↔ (is_source_value v ≡ false) }
{}
