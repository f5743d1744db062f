//! The place of a value in a line.

use crate::member::Member;
use std::fmt;

/// The place of a value in a line, as a path from its object: `transactions[0].reads[1]`. Indices
/// begin at 0.
#[derive(Clone, Copy, Debug, PartialEq, Eq)]
pub enum LinePlace {
    /// The line itself, whose path is empty.
    Line,
    /// A member of the line.
    Member(Member),
    /// An item of a list that is a member of the line: a transaction, or a verdict.
    Item(Member, usize),
    /// A member of such an item.
    ItemMember(Member, usize, Member),
    /// An item of a list in such an item: a range, or a place of a report.
    Inner(Member, usize, Member, usize),
    /// The begin (0) or the end (1) of a range.
    End(Member, usize, Member, usize, usize),
}

impl LinePlace {
    /// Returns the place of a member of the object at this place. Objects are the line itself and
    /// items of its lists.
    pub fn member(self, member: Member) -> Self {
        match self {
            LinePlace::Item(list, index) => LinePlace::ItemMember(list, index, member),
            LinePlace::Line
            | LinePlace::Member(_)
            | LinePlace::ItemMember(_, _, _)
            | LinePlace::Inner(_, _, _, _)
            | LinePlace::End(_, _, _, _, _) => LinePlace::Member(member),
        }
    }

    /// Returns the place of an item of the array that stands here.
    pub fn item(self, item: usize) -> Self {
        match self {
            LinePlace::Member(list) => LinePlace::Item(list, item),
            LinePlace::ItemMember(list, index, member) => LinePlace::Inner(
                list, index, member, item,
            ),
            LinePlace::Inner(list, index, member, range) => {
                LinePlace::End(list, index, member, range, item)
            }
            LinePlace::Line | LinePlace::Item(_, _) | LinePlace::End(_, _, _, _, _) => self,
        }
    }
}

impl fmt::Display for LinePlace {
    fn fmt<W: fmt::Write>(&self, f: &mut fmt::Formatter<W>) -> fmt::Result {
        match *self {
            LinePlace::Line => Ok(()),
            LinePlace::Member(member) => write!(f, "{member}"),
            LinePlace::Item(list, index) => write!(f, "{list}[{index}]"),
            LinePlace::ItemMember(list, index, member) => write!(f, "{list}[{index}].{member}"),
            LinePlace::Inner(list, index, member, item) => {
                write!(f, "{list}[{index}].{member}[{item}]")
            }
            LinePlace::End(list, index, member, range, end) => {
                write!(f, "{list}[{index}].{member}[{range}][{end}]")
            }
        }
    }
}
