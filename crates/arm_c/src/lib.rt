// The decoder for programs in other languages: a class is its number.
#![tactic(auto)]

ghost use Rattle.std.specs.Prelude.{◌≡◌};
ghost use Rattle.classes.specs.Class.{class_no};
ghost use Rattle.arm.specs.Naming.{class_of};

// The class of a word, by its place in document 01's order.
#[unsafe(no_mangle)]
pub extern "C" fn arm_class(word: u32) -> u32
    ensures { result ≡ class_no (class_of word) }
{
    u8::from(arm::class_of(word)).into()
}
