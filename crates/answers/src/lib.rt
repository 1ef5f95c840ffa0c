// What an answer of the walk says, in document 01's numbers.
#![tactic(auto)]

ghost use Rattle.std.specs.Prelude.{◌≡◌};
ghost use Rattle.answers.specs.Answers.{number_of, address_of, register_of};

use walk::Answer;

// The number of a refusal, 0 for none.
pub fn number(answer: Answer) -> u8
    ensures { result ≡ number_of answer }
{
    match answer {
        Answer::Refused { refusal, .. } => u8::from(refusal),
        _ => 0,
    }
}

// The address that a refusal carries.
pub fn address(answer: Answer) -> u32
    ensures { result ≡ address_of answer }
{
    match answer {
        Answer::Refused { address, .. } => address,
        _ => 0,
    }
}

// The register that refusal 11 carries.
pub fn register(answer: Answer) -> u8
    ensures { result ≡ register_of answer }
{
    match answer {
        Answer::Refused { register, .. } => register,
        _ => 0,
    }
}
