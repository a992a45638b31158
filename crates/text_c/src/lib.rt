// The text of a campus run, for C.

#![tactic(auto)]

ghost use Rattle.text.specs.Print.{TextDone};

use text::Printed;

#[unsafe(no_mangle)]
pub extern "C" fn campus_text(description: &[u8], text: &mut [u8]) -> Printed
    ensures { TextDone description.now text.old text.new result.written result.needed }
{
    text::campus_text(description, text)
}
