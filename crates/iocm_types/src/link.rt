use crate::Css;

/// The link address by which a path reaches a control unit (IOCP User's Guide, CNTLUNIT statement).
/// Two digits and four digits are two different links, also where the numbers are equal.
#[derive(Clone, Copy, PartialEq, Eq)]
pub enum Link {
    /// No link, written `**`.
    None,
    /// Two hexadecimal digits.
    Short(u8),
    /// Four hexadecimal digits.
    Long(u16),
}

/// The link of one path of a control unit, in a channel subsystem (IOCP User's Guide, LINK
/// keyword).
#[derive(Clone, Copy, PartialEq, Eq)]
pub struct CssLink {
    /// The channel subsystem of the path.
    pub css: Css,
    /// How the path reaches the control unit.
    pub link: Link,
}
