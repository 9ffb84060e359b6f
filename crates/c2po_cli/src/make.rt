//! The products that the arguments request.

ghost use Rattle.std.specs.Prelude.{◌≡◌, None, option_map};
ghost use Rattle.tool_words.specs.C2poWords.{compile_of};
ghost use Rattle.c2po_cli.specs.Asking.{compile_asked, file_kind as kind_of, make_of, show_asked, upgrade_asked};

use tool_words::{Compile, FileKind};

/// The output for a specification: its image or its instruction table, plain or in simplified form.
#[derive(Clone, Copy)]
pub(crate) struct Form {
    pub(crate) table: bool,
    pub(crate) simplify: bool,
}

/// The product that is made of a file.
#[derive(Clone, Copy)]
pub(crate) enum Product {
    /// A specification is compiled.
    Compiled(Form),
    /// A program is written in version 2.
    Upgrade,
    /// A program in version 2 is written as the text of a specification.
    Show,
}

impl Product {
    /// Returns the kind of the file.
    pub(crate) fn file_kind(self) -> FileKind
        ensures { result ≡ kind_of self }
    {
        match self {
            Product::Compiled(_) => FileKind::Spec,
            Product::Upgrade | Product::Show => FileKind::Program,
        }
    }
}

/// A request to make a product of a file.
#[derive(Clone, Copy)]
pub(crate) struct Make<'a> {
    pub(crate) product: Product,
    pub(crate) file: &'a str,
    /// The file whose first line names the columns of a specification's signals.
    pub(crate) header: Option<&'a str>,
    /// The file that is written, or `None` for the standard output.
    pub(crate) out: Option<&'a str>,
}

/// Returns the request for the image or the table of a specification.
pub(crate) fn compilation<'a>(asked: &Compile<'a>) -> Make<'a>
    ensures made { make_of result ≡ compile_asked (compile_of asked.now) }
    ensures compiles { kind_of result.product ≡ FileKind.Spec }
{
    let form = Form {
        table: asked.table,
        simplify: asked.simplify,
    };
    Make {
        product: Product::Compiled(form),
        file: asked.spec,
        header: asked.header,
        out: asked.out,
    }
}

/// Returns the request for a program in version 2.
pub(crate) fn upgrading<'a>(out: &'a str, program: &'a str) -> Make<'a>
    ensures made { make_of result ≡ upgrade_asked out.entry.now program.entry.now }
    ensures no_header { result.header ≡ None }
{
    Make {
        product: Product::Upgrade,
        file: program,
        header: None,
        out: Some(out),
    }
}

/// Returns the request for a program as text.
pub(crate) fn showing<'a>(out: Option<&'a str>, program: &'a str) -> Make<'a>
    ensures made { make_of result
        ≡ show_asked (option_map (λ name. name.now) out.entry) program.entry.now }
    ensures no_header { result.header ≡ None }
{
    Make {
        product: Product::Show,
        file: program,
        header: None,
        out,
    }
}
