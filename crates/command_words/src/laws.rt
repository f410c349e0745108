//! Laws of the definitions. Each function has an empty body, and its contract is a law.

ghost use Rattle.std.specs.Prelude.{◌≡◌, ◌<◌, ℕ, Some, None, false, length, List, [], ◌∷◌, ◌++◌, codes};
ghost use Rattle.std.specs.List.{list_any};
ghost use Rattle.ws_kinds.specs.ConfigValue.{usual_config};
ghost use Rattle.command_words.specs.Meaning.{Given, Text, is_equals, meant, number_in, options_from};
ghost use Rattle.command_words.specs.declared.command.Command.TheVariants as command;

/// A command with no options has the numbers of `Config::usual`. `serve` has them with its port alone, and then takes as many turns
/// as there can be; without a port it is no command.
pub fn without_options()
    ensures echo { meant (codes "echo" ∷ []) ≡ Some (command.Echo usual_config.max_message) }
    ensures replay { meant (codes "replay" ∷ []) ≡ Some (command.Replay usual_config) }
    ensures serve { (value : Text) (port : ℕ) → number_in 1 65535 value ≡ Some port →
        meant (codes "serve" ∷ codes "--port" ∷ value ∷ []) ≡ Some (command.Serve usual_config port 18446744073709551615) }
    ensures without_port { meant (codes "serve" ∷ []) ≡ None }
{}

/// `--NAME=VALUE` is the same as `--NAME` and a next word VALUE, whatever the value: also an empty one, or one that begins
/// with hyphens.
pub fn either_form()
    ensures { (name value : Text) (rest : List Text) → 0 < length name → list_any is_equals name ≡ false →
        options_from None ((codes "--" ++ name ++ codes "=" ++ value) ∷ rest) ≡ options_from None ((codes "--" ++ name) ∷ value ∷ rest) }
{}

/// The order of options does not matter: where some words give options and other words do, it is the same which come first.
pub fn any_order()
    ensures echo { (front back : List Text) (x y : List Given) → options_from None front ≡ Some x → options_from None back ≡ Some y →
        meant (codes "echo" ∷ front ++ back) ≡ meant (codes "echo" ∷ back ++ front) }
    ensures replay { (front back : List Text) (x y : List Given) → options_from None front ≡ Some x → options_from None back ≡ Some y →
        meant (codes "replay" ∷ front ++ back) ≡ meant (codes "replay" ∷ back ++ front) }
    ensures serve { (front back : List Text) (x y : List Given) → options_from None front ≡ Some x → options_from None back ≡ Some y →
        meant (codes "serve" ∷ front ++ back) ≡ meant (codes "serve" ∷ back ++ front) }
{}
