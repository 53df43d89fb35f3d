// Tests of tokens and clients at their edges.
#![tactic(auto)]

#[cfg(test)]
mod tests {
    use clients::{Client, Endpoint, Session, Token};
    use protocol::Refusal;
    use std::process::Abort;
    use std::test::Fail;

    const BYTES: [u8; 9] = [9, 8, 7, 6, 5, 4, 3, 2, 1];

    // A token of so many bytes: its length, and its bytes with zeros behind.
    fn check_token(rt: &impl Abort, len: usize, bytes: [u8; 8]) -> Result<(), Fail> {
        assert!(rt; len <= 9);
        let token = Token::new(&BYTES[0..len])?;
        assert_eq!(rt; token.len(), len);
        assert_eq!(rt; token.bytes(), bytes);
        Ok(())
    }

    #[test]
    fn tokens(rt: HostRuntime) -> Result<(), Fail> {
        check_token(&rt, 0, [0; 8])?;
        check_token(&rt, 1, [9, 0, 0, 0, 0, 0, 0, 0])?;
        check_token(&rt, 7, [9, 8, 7, 6, 5, 4, 3, 0])?;
        check_token(&rt, 8, [9, 8, 7, 6, 5, 4, 3, 2])?;
        assert_eq!(rt; Token::new(&BYTES), Err(Refusal::BadValue));
        Ok(())
    }

    // Zeros behind a token do not make it another's.
    #[test]
    fn token_lengths(rt: HostRuntime) -> Result<(), Fail> {
        let zeros = [0; 8];
        let one = Token::new(&zeros[0..1])?;
        let two = Token::new(&zeros[0..2])?;
        let none = Token::new(&[])?;
        assert!(rt; one.same(&one));
        assert!(rt; !one.same(&two));
        assert!(rt; !none.same(&one));
        Ok(())
    }

    // Whether clients of any kind are the same.
    fn check_same<C: Client>(rt: &impl Abort, a: C, b: C, same: bool) {
        assert_eq!(rt; a.same(&b), same);
        assert_eq!(rt; b.same(&a), same);
        assert!(rt; a.same(&a));
    }

    #[test]
    fn kinds(rt: HostRuntime) {
        check_same(&rt, Session(0), Session(4294967295), false);
        check_same(&rt, Session(7), Session(7), true);
        let address = [0xFE, 0x80, 0, 0, 0, 0, 0, 0, 0, 0, 0, 0, 0, 0, 0, 1];
        let near = [0xFE, 0x80, 0, 0, 0, 0, 0, 0, 0, 0, 0, 0, 0, 0, 0, 2];
        check_same(
            &rt,
            Endpoint::new(address, 5683),
            Endpoint::new(address, 5683),
            true,
        );
        check_same(
            &rt,
            Endpoint::new(address, 5683),
            Endpoint::new(address, 5684),
            false,
        );
        check_same(
            &rt,
            Endpoint::new(address, 0),
            Endpoint::new(near, 0),
            false,
        );
        assert_eq!(rt; Endpoint::new(address, 65535).address(), address);
        assert_eq!(rt; Endpoint::new(address, 65535).port(), 65535);
    }
}
