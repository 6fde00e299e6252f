//! Laws of scripts. Each function's contract is the law, and the function does nothing.

ghost use Rattle.std.specs.Prelude.{◌≡◌, ◌<◌, ◌≤◌, ◌^◌, List, ℕ, length};
ghost use Rattle.hex.specs.Hex.{IsBytes};
ghost use Rattle.pm_types.specs.declared.command.Cmd.TheVariants.{New};
ghost use Rattle.pm_types.specs.declared.limits.TheConstants.{CLIENTS, REGISTERS};
ghost use Rattle.pm_types.specs.declared.reply.Reply.TheVariants.{Shown};
ghost use Rattle.pm_model.specs.Text.{reply_words};
ghost use Rattle.pm_script.specs.declared.fault.ScriptFault.{ScriptFault as Fault};
ghost use Rattle.pm_script.specs.declared.limits.TheConstants.{LINE_BYTES};
ghost use Rattle.pm_script.specs.declared.line.Line.{Line as Says};
ghost use Rattle.pm_script.specs.declared.line.Line.TheVariants.{Client};
ghost use Rattle.pm_script.specs.declared.line.YoungLine.{YoungLine as YoungSays};
ghost use Rattle.pm_script.specs.declared.reply.TheConstants.{REPLY_BYTES};
ghost use Rattle.pm_script.specs.Bad.{IsBad, IsYoungBad};
ghost use Rattle.pm_script.specs.Script.{IsScript, IsBody, HasSpelling, text_of, new_body};
ghost use Rattle.pm_script.specs.Words.{IsHexWord};
ghost use Rattle.pm_script.specs.Young.{IsYoungScript, HasYoungSpelling, young_text_of};

/// A law of limits: the numbers of a line and of a reply, in bytes.
pub fn limits_of_scripts()
    ensures line_bytes { LINE_BYTES ≡ 16384 }
    ensures reply_bytes { REPLY_BYTES ≡ 8195 }
{}

/// A law of bytes: the word that `data` prints spells them, a dash where there are none, and `new` takes it: the line
/// that says `new` with that word, of 16,384 bytes at most, makes an object of these bytes.
pub fn what_data_prints_is_taken()
    ensures spells { (bytes : List ℕ) → IsBytes bytes → IsHexWord (reply_words (Shown bytes)) bytes }
    ensures taken { (client reg count : ℕ) (bytes : List ℕ)
        → client < CLIENTS → reg < REGISTERS → count < 2 ^ 32 → IsBytes bytes
        → length (new_body client reg count (reply_words (Shown bytes))) ≤ LINE_BYTES
        → IsBody (new_body client reg count (reply_words (Shown bytes))) (Client client (New reg count bytes)) }
{}

/// A law of scripts: bytes are a script of one list of lines at most.
pub fn a_script_has_one_reading()
    ensures { (bytes : List ℕ) (some others : List Says) → IsScript bytes some → IsScript bytes others → some ≡ others }
{}

/// A law of scripts: lines that are spelled within the limits of line, count and source are those of their text.
pub fn spelled_lines_are_read_again()
    ensures { (lines : List Says) → HasSpelling lines → IsScript (text_of lines) lines }
{}

/// A law of bad scripts: bytes have one fault at most, and those of a script have none.
pub fn a_script_has_no_fault()
    ensures one { (bytes : List ℕ) (some other : Fault) → IsBad some bytes → IsBad other bytes → some ≡ other }
    ensures none { (bytes : List ℕ) (fault : Fault) (lines : List Says) → IsBad fault bytes → IsScript bytes lines → ⊥ }
{}

/// A law of scripts for a run with a nursery: bytes are one of one list of lines at most.
pub fn a_young_script_has_one_reading()
    ensures { (bytes : List ℕ) (some others : List YoungSays) → IsYoungScript bytes some → IsYoungScript bytes others
        → some ≡ others }
{}

/// A law of scripts for a run with a nursery: lines that are spelled within the limits are those of their text.
pub fn spelled_young_lines_are_read_again()
    ensures { (lines : List YoungSays) → HasYoungSpelling lines → IsYoungScript (young_text_of lines) lines }
{}

/// A law of bad scripts for a run with a nursery: bytes have one fault at most, and those of a script have none.
pub fn a_young_script_has_no_fault()
    ensures one { (bytes : List ℕ) (some other : Fault) → IsYoungBad some bytes → IsYoungBad other bytes → some ≡ other }
    ensures none { (bytes : List ℕ) (fault : Fault) (lines : List YoungSays)
        → IsYoungBad fault bytes → IsYoungScript bytes lines → ⊥ }
{}
