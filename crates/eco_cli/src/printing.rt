//! What is printed of misused words and of questions that were given up.

ghost use Rattle.std.specs.Prelude.{◌≡◌, ◌++◌, codes, decimal, map, IfOk, OnOk};
ghost use Rattle.eco_report.specs.Texts.{bit_digit};
ghost use Rattle.eco_cli.specs.Printing.{question_word, usage_text};

use eco_netlist::OutOfMemory;
use eco_pose::Question;
use eco_words::NumberOption;
use itoa::Buffer;
use std::alloc::Global;

/// What is printed where the value of this option is no number that it may have.
pub fn usage_text(option: NumberOption) -> &'static [u8]
    ensures { result.now ≡ usage_text option }
{
    match option {
        NumberOption::Budget => b"usage --budget\n",
        NumberOption::InputWeight => b"usage --input-weight\n",
        NumberOption::Least => b"usage --least\n",
        NumberOption::Seed => b"usage --seed\n",
        NumberOption::Size => b"usage --size\n",
        NumberOption::Targets => b"usage --targets\n",
    }
}

/// What is printed of a question that was given up, where each may have so many learnt clauses.
pub fn budget_line(alloc: Global, budget: u32, question: &Question) -> Result<Vec<u8>, OutOfMemory>
    ensures { IfOk result (λ text. text.items ≡ codes "budget " ++ question_word question.now ++ codes " " ++ decimal budget ++ codes "\n") }
{
    let mut text = Vec::from_slice(alloc, b"budget ")?;
    text.extend_from_slice(question_word(question))?;
    let mut buffer = Buffer::new();
    text.extend_from_slice(b" ")?;
    text.extend_from_slice(buffer.format(budget).as_bytes())?;
    text.extend_from_slice(b"\n")?;
    Ok(text)
}

/// Puts a line that ends with this number behind the text.
pub(crate) fn add_line(text: &mut Vec<u8>, start: &[u8], number: u64) -> Result<(), OutOfMemory>
    ensures { OnOk result (text.new.items ≡ text.old.items ++ start.now ++ decimal number ++ codes "\n") }
{
    let mut buffer = Buffer::new();
    text.extend_from_slice(start)?;
    text.extend_from_slice(buffer.format(number).as_bytes())?;
    text.extend_from_slice(b"\n")?;
    Ok(())
}

/// Puts these bits behind the text, a digit each.
pub(crate) fn add_bits(text: &mut Vec<u8>, bits: &[bool]) -> Result<(), OutOfMemory>
    ensures { OnOk result (text.new.items ≡ text.old.items ++ map bit_digit bits.now) }
{
    for bit in bits {
        text.push(if *bit { b'1' } else { b'0' })?;
    }
    Ok(())
}

fn question_word(question: &Question) -> &'static [u8]
    ensures { result.now ≡ question_word question.now }
{
    match question {
        Question::Rectify { .. } => b"rect",
        Question::Separate { .. } => b"sep",
        Question::Fix { .. } => b"fix",
        Question::Equal { .. } => b"eq",
    }
}
