//! Laws of test scripts: over known files a script is at most one of done, refused and different. No code, only laws.
#![tactic(auto)]

ghost use Rattle.script_laws.specs.Exact.{ScriptExactLaw};

/// Law: over known files a script is at most one of three: done, refused, or different in a line. In each of these it
/// puts one thing, but for the nets of a loop that it is refused for.
pub fn script_exact_law()
    ensures { ScriptExactLaw }
{
    script_parser::reading_law();
    hdl_parser::reading_law();
    hack_asm::hack_law();
    hack_asm::assembly_law();
}
