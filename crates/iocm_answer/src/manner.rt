use iocm_lines::{Form, Input};

/// In which form an answer is printed, and of which text a refusal tells.
#[derive(Clone, Copy, PartialEq, Eq)]
pub struct Manner {
    /// The form: text, or lines of JSON.
    pub form: Form,
    /// The text where a refusal comes, if one was read. Lines of JSON say it.
    pub input: Option<Input>,
}

impl Manner {
    /// As text.
    pub const TEXT: Manner = Manner {
        form: Form::Text,
        input: None,
    };
}
