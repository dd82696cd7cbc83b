// What the readers of this crate keep to, whatever the line. Each function's contract names a law, and calling it does nothing.
ghost use Rattle.lines.specs.Calls.{header_form, call_form};
ghost use Rattle.lines.specs.Laws.{Refusals};
ghost use Rattle.lines.specs.Accepts.{HeadersSay, CallsSay};
ghost use Rattle.lines.specs.Rounds.{HeadersReturn, CallsReturn, HeadersRewrite, CallsRewrite};

// A first line is refused for the topmost row that fits it, row 3 at its leftmost unfit field, and for nothing else.
pub fn header_refusals_stand()
    ensures { Refusals header_form }
{}

// And so is every later line.
pub fn call_refusals_stand()
    ensures { Refusals call_form }
{}

// A header that is accepted has each field's value as its digits or its capital say.
pub fn headers_say_their_fields()
    ensures { HeadersSay }
{}

// And so has a call.
pub fn calls_say_their_fields()
    ensures { CallsSay }
{}

// Writing a header and reading it back gives the header, numbers to 99,999,999.
pub fn headers_return()
    ensures { HeadersReturn }
{}

// And so does a call.
pub fn calls_return()
    ensures { CallsReturn }
{}

// Reading an accepted first line and writing the header gives the same bytes.
pub fn headers_rewrite()
    ensures { HeadersRewrite }
{}

// And so does reading and writing a call.
pub fn calls_rewrite()
    ensures { CallsRewrite }
{}
