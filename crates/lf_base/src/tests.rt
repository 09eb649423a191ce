//! Texts and lists that are copied and compared.
use crate::{ListOf, Same, Text, TextList, TryCopy};
use std::test::Fail;

#[test]
fn texts_copy_and_compare(rt: HostRuntime) -> Result<(), Fail> {
    let alloc = rt.alloc();
    let one = Text::of(alloc, "naïve")?;
    let two = Text::from_string(String::from_str(alloc, "naïve")?)?;
    assert!(rt; one.is(&two) && one.copy(alloc)?.is(&one));
    assert_eq!(rt; one.as_str(), "naïve");
    let mut texts = TextList::new(alloc);
    assert!(rt; texts.is_empty());
    texts.push(one)?;
    texts.push(Text::of(alloc, "b")?)?;
    let copied = texts.copy(alloc)?;
    assert!(rt; copied.is(&texts) && copied.len() == 2);
    assert_eq!(rt; copied.at(1).map(|text| text.as_str()), Some("b"));
    assert!(rt; copied.at(2).is_none());
    Ok(())
}

#[test]
fn lists_are_vectors(rt: HostRuntime) -> Result<(), Fail> {
    let alloc = rt.alloc();
    let list = ListOf::from_vec([7u64, 8].to_vec(alloc)?);
    assert_eq!(rt; list.as_slice(), [7u64, 8].as_slice());
    let copied = Some(list).copy(alloc)?;
    assert_eq!(rt; copied.map(|list| list.len()), Some(2));
    assert_eq!(rt; ListOf::from_vec([true].to_vec(alloc)?).into_vec().len(), 1);
    Ok(())
}
