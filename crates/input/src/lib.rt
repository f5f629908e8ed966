// Float samples, as some recordings have them, made into what the front end takes: 12 bits for each component, in phase and in quadrature.
#![tactic(auto)]

ghost use Rattle.std.specs.Prelude.{◌≡◌};
ghost use Rattle.kinds.specs.Answer.{answer_number};
ghost use Rattle.input.specs.Input.{component_of, sample_answer};
ghost use Rattle.input.specs.Refusal.{sample_number};

// A component, whose full scale is ±1. It refuses nothing: what no 12 bits can hold goes to the nearer end, and a NaN to 0.
pub fn component(x: f32) -> i16
    ensures { result ≡ component_of x }
{
    let scaled = std::num::f32_to_f64_with_nan(x * 2048.0);
    floats::round_i64(scaled).clamp(-2048, 2047) as i16
}

// Why float samples are refused (RULES 8.5).
#[derive(Clone, Copy, PartialEq, Eq, Debug)]
pub enum SampleError {
    OddInput,
    ShortOutput,
}

impl SampleError {
    // One form for all errors: those that hold something have no discriminant to cast.
    pub fn number(self) -> u32
        ensures { result ≡ sample_number self }
    {
        match self {
            SampleError::OddInput => 10,
            SampleError::ShortOutput => 11,
        }
    }
}

// Takes the components of float samples, I before Q, as the front end does (RULES 6.2). Value n is made of float n.
pub fn sample(floats: &[f32], values: &mut [i16]) -> Result<(), SampleError>
    ensures { record { number = answer_number sample_number result; places = values.new } ≡ sample_answer floats.now values.old }
{
    if floats.len() % 2 != 0 {
        return Err(SampleError::OddInput);
    }
    if values.len() < floats.len() {
        return Err(SampleError::ShortOutput);
    }
    for (n, &x) in floats.iter().enumerate() {
        values[n] = component(x);
    }
    Ok(())
}
