// Images, and joins of two.
use super::rows::check_rows;
use std::test::Fail;

// Nothing is written before the text has ended.
const IMAGES: &str = "\
| image --raw --k 2 | 5;3; | 0 | theta2 k=2 seed=0;0000000000000004;0000000000000006;end 2; |
| image --k 2 --raw --seed 7 | 5;3;;5;4; | 0 \
| theta2 k=2 seed=7;0000000000000004;0000000000000005;end 2; |
| image --k 2 | hello;hello, world; | 0 \
| theta2 k=2 seed=0;1a17d6311d2f5e47;65ec53d9a0decd81;end 2; |
| image --raw --k 1048576 | 9223372036854775806;0; | 0 \
| theta2 k=1048576 seed=0;0000000000000001;7fffffffffffffff;end 2; |
| image | | 0 | theta2 k=4096 seed=0;end 0; |
| image --raw --csv 2 --k 3 | a,5;b,3;c,5; | 0 \
| theta2 k=3 seed=0;0000000000000004;0000000000000006;end 2; |
read=0 | image --raw --file ids --k 2 | | 0 \
| theta2 k=2 seed=0;0000000000000004;0000000000000006;end 2; |
| image --raw | 5;x; | 6 | | line 2: not a number;
| image --raw --csv 2 | 1,5;2,x; | 6 | | record 2: not a number;
| image --csv 3 | 1,5; | 12 | | record 1: bad csv;
piece=100000 | image | hello;x@; | 5 | | line 2: too long;
read=0 | image --file none | | 8 | | open fault;
read=2 | image --raw | 5;3; | 3 | | read fault;
room=5 | image --raw --k 2 | 5;3; | 4 | theta | write fault;";

#[test]
fn images(rt: HostRuntime) -> Result<(), Fail> {
    check_rows(&rt, rt.alloc(), IMAGES, 14)
}

// The left file is read whole, and found to be an image, before the right one is opened.
const JOINS: &str = "\
read=0 | join --left one --right two | | 0 | estimate 281474976710656/4; |
read=0 | join --right one --left two | | 0 | estimate 281474976710656/4; |
read=0 | join --left two --right two | | 0 | estimate 1/1; |
read=0 | join --left one --image --right two | | 0 | theta1 k=2 seed=0;000000000003;000000000004;end 2; |
read=0 | join --left one --right three | | 11 | | mixed: theta1 k=2 seed=0 and theta1 k=3 seed=0;
read=0 | join --left three --right one | | 11 | | mixed: theta1 k=3 seed=0 and theta1 k=2 seed=0;
read=0 | join --left one --right seven | | 11 | | mixed: theta1 k=2 seed=0 and theta1 k=2 seed=7;
read=0 | join --left short --right two | | 9 | | file 1 line 3: bad image;
read=0 | join --left short --right none | | 9 | | file 1 line 3: bad image;
read=0 | join --left short --right three | | 9 | | file 1 line 3: bad image;
read=0 | join --left one --right short | | 9 | | file 2 line 3: bad image;
read=0 | join --left three --right short | | 9 | | file 2 line 3: bad image;
read=0 | join --left none --right short | | 8 | | open fault;
read=0 | join --left one --right none | | 8 | | open fault;
read=0 | join --left text --right none | theta1 k=2 seed=0;x@; | 9 | | file 1 line 2: bad image;
read=0 | join --left one --right text | x@; | 9 | | file 2 line 1: bad image;
read=0 | join --left one --right text | | 9 | | file 2 line 1: bad image;";

#[test]
fn joins(rt: HostRuntime) -> Result<(), Fail> {
    check_rows(&rt, rt.alloc(), JOINS, 17)
}

// The first line out of its place: of a text of no version, of version 1, and of version 2, whose hashes are from 1 to
// 7fffffffffffffff.
const BAD: &str = "\
| join --left text --right none | | 9 | | file 1 line 1: bad image;
| join --left text --right none | end 0; | 9 | | file 1 line 1: bad image;
| join --left text --right none | theta1 k=1 seed=0;end 0; | 9 | | file 1 line 1: bad image;
| join --left text --right none | theta2 k=1 seed=0;end 0; | 9 | | file 1 line 1: bad image;
| join --left text --right none | theta1 k=32769 seed=0;end 0; | 9 | | file 1 line 1: bad image;
| join --left text --right none | theta2 k=1048577 seed=0;end 0; | 9 | | file 1 line 1: bad image;
| join --left text --right none | theta1 k=1048576 seed=0;end 0; | 9 | | file 1 line 1: bad image;
| join --left text --right none | theta1 k=02 seed=0;end 0; | 9 | | file 1 line 1: bad image;
| join --left text --right none | theta2 k=02 seed=0;end 0; | 9 | | file 1 line 1: bad image;
| join --left text --right none | theta1 k=2 seed=00;end 0; | 9 | | file 1 line 1: bad image;
| join --left text --right none | theta2 k=2 seed=4294967296;end 0; | 9 | | file 1 line 1: bad image;
| join --left text --right none | theta1  k=2 seed=0;end 0; | 9 | | file 1 line 1: bad image;
| join --left text --right none | theta2 k=2 seed=0 ;end 0; | 9 | | file 1 line 1: bad image;
| join --left text --right none | theta1 k=2 seed=0^;end 0; | 9 | | file 1 line 1: bad image;
| join --left text --right none | theta k=2 seed=0;end 0; | 9 | | file 1 line 1: bad image;
| join --left text --right none | theta0 k=2 seed=0;end 0; | 9 | | file 1 line 1: bad image;
| join --left text --right none | theta3 k=2 seed=0;end 0; | 9 | | file 1 line 1: bad image;
| join --left text --right none | theta01 k=2 seed=0;end 0; | 9 | | file 1 line 1: bad image;
| join --left text --right none | theta12 k=2 seed=0;end 0; | 9 | | file 1 line 1: bad image;
| join --left text --right none | theta1 k=2 seed=0;000000000003; | 9 | | file 1 line 3: bad image;
| join --left text --right none | theta1 k=2 seed=0;00000000000A;end 1; | 9 | | file 1 line 2: bad image;
| join --left text --right none | theta1 k=2 seed=0;00000000003;end 1; | 9 | | file 1 line 2: bad image;
| join --left text --right none | theta1 k=2 seed=0;0000000000000003;end 1; | 9 | | file 1 line 2: bad image;
| join --left text --right none | theta1 k=2 seed=0;000000000003;000000000003;end 2; | 9 | | file 1 line 3: bad image;
| join --left text --right none | theta1 k=2 seed=0;000000000005;000000000003;end 2; | 9 | | file 1 line 3: bad image;
| join --left text --right none | theta1 k=2 seed=0;000000000003;000000000005;000000000006;end 3; | 9 | | file 1 line 4: bad image;
| join --left text --right none | theta1 k=2 seed=0;000000000003;000000000005;end 3; | 9 | | file 1 line 4: bad image;
| join --left text --right none | theta1 k=2 seed=0;000000000003;000000000005;end 2 | 9 | | file 1 line 4: bad image;
| join --left text --right none | theta1 k=2 seed=0;000000000003;000000000005;end 2;; | 9 | | file 1 line 5: bad image;
| join --left text --right none | theta1 k=2 seed=0;000000000003;000000000005;end 2;x | 9 | | file 1 line 5: bad image;
| join --left text --right none | theta1 k=2 seed=0;end 0^; | 9 | | file 1 line 2: bad image;
| join --left text --right none | theta1 k=2 seed=0;end 00; | 9 | | file 1 line 2: bad image;
| join --left text --right none | theta2 k=2 seed=0;0000000000000003; | 9 | | file 1 line 3: bad image;
| join --left text --right none | theta2 k=2 seed=0;000000000000000A;end 1; | 9 | | file 1 line 2: bad image;
| join --left text --right none | theta2 k=2 seed=0;000000000000003;end 1; | 9 | | file 1 line 2: bad image;
| join --left text --right none | theta2 k=2 seed=0;000000000003;end 1; | 9 | | file 1 line 2: bad image;
| join --left text --right none | theta2 k=2 seed=0;0000000000000000;end 1; | 9 | | file 1 line 2: bad image;
| join --left text --right none | theta2 k=2 seed=0;8000000000000000;end 1; | 9 | | file 1 line 2: bad image;
| join --left text --right none | theta2 k=2 seed=0;ffffffffffffffff;end 1; | 9 | | file 1 line 2: bad image;
| join --left text --right none | theta2 k=2 seed=0;0000000000000003;0000000000000003;end 2; | 9 | | file 1 line 3: bad image;
| join --left text --right none | theta2 k=2 seed=0;0000000000000005;0000000000000003;end 2; | 9 | | file 1 line 3: bad image;
| join --left text --right none | theta2 k=2 seed=0;0000000000000003;0000000000000005;0000000000000006;end 3; | 9 | | file 1 line 4: bad image;
| join --left text --right none | theta2 k=2 seed=0;0000000000000003;0000000000000005;end 3; | 9 | | file 1 line 4: bad image;
| join --left text --right none | theta2 k=2 seed=0;0000000000000003;0000000000000005;end 2 | 9 | | file 1 line 4: bad image;
| join --left text --right none | theta2 k=2 seed=0;0000000000000003;0000000000000005;end 2;; | 9 | | file 1 line 5: bad image;
| join --left text --right none | theta2 k=2 seed=0;0000000000000003;0000000000000005;end 2;x | 9 | | file 1 line 5: bad image;
| join --left text --right none | theta2 k=2 seed=0;end 0^; | 9 | | file 1 line 2: bad image;
| join --left text --right none | theta2 k=2 seed=0;end 00; | 9 | | file 1 line 2: bad image;";

#[test]
fn images_with_a_line_out_of_place(rt: HostRuntime) -> Result<(), Fail> {
    check_rows(&rt, rt.alloc(), BAD, 48)
}

// Each version has limits of its own for k and for hashes, of which 0 is one in version 1 alone.
const VERSIONS: &str = "\
| join --left four --right five | | 0 | estimate 9223372036854775808/5; |
| join --left five --right four --image | | 0 \
| theta2 k=2 seed=0;0000000000000004;0000000000000005;end 2; |
| join --left five --right five | | 0 | estimate 1/1; |
| join --left two --right four | | 11 | | mixed: theta1 k=2 seed=0 and theta2 k=2 seed=0;
| join --left four --right two --image | | 11 | | mixed: theta2 k=2 seed=0 and theta1 k=2 seed=0;
| join --left zero --right one | | 0 | estimate 281474976710656/3; |
| join --left two --right zero --image | | 0 \
| theta1 k=2 seed=0;000000000000;000000000004;end 2; |
| join --left old --right old | | 0 | estimate 2/1; |
| join --left old --right old --image | | 0 \
| theta1 k=32768 seed=4294967295;000000000000;ffffffffffff;end 2; |
| join --left wide --right wide | | 0 | estimate 2/1; |
| join --left wide --right wide --image | | 0 \
| theta2 k=1048576 seed=4294967295;0000000000000001;7fffffffffffffff;end 2; |
| join --left old --right wide | | 11 | \
| mixed: theta1 k=32768 seed=4294967295 and theta2 k=1048576 seed=4294967295;
| join --left five --right text | theta2 k=2 seed=0;0000000000000000;end 1; | 9 | | file 2 line 2: bad image;
| join --left text --right one | theta2 k=1048577 seed=0;end 0; | 9 | | file 1 line 1: bad image;
| join --left text --right text | theta1 k=2 seed=0;342fac623a5e;cbd8a7b341bd;end 2; | 0 \
| estimate 281474976710656/224131386917309; |
| join --left text --right text | theta1 k=32768 seed=4294967295;end 0; | 0 | estimate 0/1; |
| join --left zero --right zero | | 0 | estimate 1/1; |
| join --left text --right text | theta1 k=2 seed=0;000000000000;000000000001;end 2; | 0 | estimate 281474976710656/1; |
| join --left text --right text | theta2 k=1048576 seed=4294967295;end 0; | 0 | estimate 0/1; |
| join --left text --right text | theta2 k=2 seed=0;0000000000000001;end 1; | 0 | estimate 1/1; |
| join --left four --right four | | 0 | estimate 9223372036854775808/6; |
| join --left text --right text | theta2 k=3 seed=0;0000000000000001;0000000000000002;7fffffffffffffff;end 3; | 0 \
| estimate 18446744073709551616/9223372036854775807; |
| join --left zero --right one --image | | 0 | theta1 k=2 seed=0;000000000000;000000000003;end 2; |
| join --left one --right one --image | | 0 | theta1 k=2 seed=0;000000000003;000000000005;end 2; |
| join --left text --right four --image | theta2 k=2 seed=0;end 0; | 0 \
| theta2 k=2 seed=0;0000000000000004;0000000000000006;end 2; |
| join --left one --right text | theta1 k=2 seed=1;end 0; | 11 | \
| mixed: theta1 k=2 seed=0 and theta1 k=2 seed=1;";

#[test]
fn joins_of_both_versions(rt: HostRuntime) -> Result<(), Fail> {
    check_rows(&rt, rt.alloc(), VERSIONS, 26)
}

// Each call of the shelf fails in turn, and then the output.
const FAULTS: &str = "\
open=0 | join --left one --right two | | 8 | | open fault;
open=1 | join --left one --right two | | 8 | | open fault;
open=2 | join --left one --right two | | 0 | estimate 281474976710656/4; |
open=1 | join --left short --right two | | 9 | | file 1 line 3: bad image;
file=0 | join --left one --right two | | 3 | | read fault;
file=1 | join --left one --right two | | 3 | | read fault;
file=2 | join --left one --right two | | 3 | | read fault;
file=3 | join --left one --right two | | 3 | | read fault;
file=4 | join --left one --right two | | 0 | estimate 281474976710656/4; |
room=5 | join --left one --right two | | 4 | estim | write fault;
room=5 | join --left one --right two --image | | 4 | theta | write fault;";

#[test]
fn joins_that_fail(rt: HostRuntime) -> Result<(), Fail> {
    check_rows(&rt, rt.alloc(), FAULTS, 11)
}
