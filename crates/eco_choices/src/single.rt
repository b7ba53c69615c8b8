//! Laws of choices, and of single nets at one input.

ghost use Rattle.eco_choices.specs.Choices.{WrongButNoneIsWrong, WrongButIsWrongButPart};
ghost use Rattle.eco_choices.specs.Without.{WithoutIsSound, WrongWithoutIsWrongBut, WithoutIsRectifiable};
ghost use Rattle.eco_choices.specs.Turned.{TurnedIsWrongBut, UnmendedIsWrongBut, TurnedMapsAgree, SpecificationIsAsked, OtherOutputsAreWrong};

/// A law of choices: with no net cut an input is wrong exactly if it is wrong, and more nets that are cut leave fewer inputs wrong.
pub fn choices_have_parts()
    ensures none { WrongButNoneIsWrong }
    ensures part { WrongButIsWrongButPart }
{}

/// A law of choices: a netlist without the gates of some nets stands for these nets cut, so that what holds of netlists with
/// targets holds of choices.
pub fn gates_are_left_out()
    ensures sound { WithoutIsSound }
    ensures wrong { WrongWithoutIsWrongBut }
    ensures rectifiable { WithoutIsRectifiable }
{}

/// A law of single nets: an input determines the values with a net turned, and these tell whether cutting the net helps there.
pub fn turned_nets_tell()
    ensures wrong { TurnedIsWrongBut }
    ensures unmended { UnmendedIsWrongBut }
    ensures agree { TurnedMapsAgree }
{}

/// A law of inputs: the outputs of the specification are those that are asked for, and an input with other outputs is wrong.
pub fn outputs_are_asked()
    ensures asked { SpecificationIsAsked }
    ensures other { OtherOutputsAreWrong }
{}
