//! Printing and reading are two directions of one thing. Each law is the contract of a function
//! without a body.
ghost use Rattle.std.specs.Prelude.{◌≡◌, Some, true};
ghost use Rattle.json_forms.specs.Bytes.{of_bytes};
ghost use Rattle.serde_json.specs.Data.{Data};
ghost use Rattle.smithy_types.specs.declared.payload.Payload.{Payload};
ghost use Rattle.run_grammar.specs.Fits.{fits};
ghost use Rattle.run_grammar.specs.declared.answer.Answer.{Answer};
ghost use Rattle.run_grammar.specs.declared.kind.Kind.{Kind};
ghost use Rattle.json_values.specs.AnswerReadings.{answer_at, kind_at};
ghost use Rattle.json_values.specs.Readings.{payload_at};
ghost use Rattle.json_values.specs.Spellable.{answer_spellable, payload_spellable};
ghost use Rattle.json_values.specs.Values.{answer_data, kind_data, payload_data};

/// What an answer that JSON can spell prints as is read as that answer, at each kind of question
/// that it fits.
pub fn printed_answers_are_read()
    ensures { (k : Kind) (a : Answer) → fits k a ≡ true → answer_spellable a ≡ true →
        answer_at k (answer_data a) ≡ Some a }
{}

/// What is read of data whose texts are of bytes fits its question, and is an answer that JSON can
/// spell. So it prints as JSON that is read as the same answer.
pub fn read_answers_can_be_spelled()
    ensures fitting { (k : Kind) (d : Data) (a : Answer) → of_bytes d ≡ true →
        answer_at k d ≡ Some a → fits k a ≡ true }
    ensures spellable { (k : Kind) (d : Data) (a : Answer) → of_bytes d ≡ true →
        answer_at k d ≡ Some a → answer_spellable a ≡ true }
    ensures again { (k : Kind) (d : Data) (a : Answer) → of_bytes d ≡ true →
        answer_at k d ≡ Some a → answer_at k (answer_data a) ≡ Some a }
{}

/// What a kind prints as is read as that kind.
pub fn printed_kinds_are_read()
    ensures { (k : Kind) → kind_at (kind_data k) ≡ Some k }
{}

/// What a payload of Rust's type prints as is read as that payload, and what is read is one.
pub fn printed_payloads_are_read()
    ensures printed { (p : Payload) → payload_spellable p ≡ true →
        payload_at (payload_data p) ≡ Some p }
    ensures read { (d : Data) (p : Payload) → of_bytes d ≡ true → payload_at d ≡ Some p →
        payload_spellable p ≡ true }
{}
