//! The rows, as a text. Their values are worked out by hand.
//!
//! A row follows an equals sign, and has four parts with a bar between them: what it shows,
//! its images, the lines that are handed in, and what is found. That is what the lines are
//! answered, whether one of them was refused, the status, what each image says and whether it has
//! the plain data, and what is tasted, if that is asked for among the images.

pub(super) const ROWS: &str = "= a label | a b |
k1 label --mid 7 --did 1 gm0 a.img
|
k1 ok 1
without a refusal
gm0             COMPLETE 1/1
  a.img           ACTIVE
a.img: did 1 of 1, genid 0, syncid 1, flags 0, offset 0, 1536 of 2048 bytes, plain
b.img: fault 1, other
= a label once more | a b |
k1 label --mid 7 --did 1 gm0 a.img
k1 label --mid 7 --did 1 gm0 a.img
k1 label --did 1 --mid 7 --slice 4096 gm0 a.img
k1 destroy gm0
|
k1 ok 1
k1 repeated 1
k1 repeated 1
k1 refused 3
with a refusal
gm0             COMPLETE 1/1
  a.img           ACTIVE
a.img: did 1 of 1, genid 0, syncid 1, flags 0, offset 0, 1536 of 2048 bytes, plain
b.img: fault 1, other
= a label of two sectors | c |
k1 label --mid 8 --did 1 gm1 c.img
|
k1 ok 1
without a refusal
gm1             COMPLETE 1/1
  c.img           ACTIVE
c.img: did 1 of 1, genid 0, syncid 1, flags 0, offset 0, 512 of 1024 bytes, plain
= a label of one sector | short-c |
k1 label --mid 8 --did 1 gm1 c.img
|
k1 refused 28
with a refusal
no mirrors
c.img: fault 1, plain
= an insert | a b |
k1 label --mid 7 --did 1 gm0 a.img
k2 insert --did 2 gm0 b.img
|
k1 ok 1
k2 ok 2
without a refusal
gm0             DEGRADED 1/2
  a.img           ACTIVE
  b.img           SYNCHRONIZING 0 of 3
a.img: did 1 of 2, genid 0, syncid 1, flags 0, offset 0, 1536 of 2048 bytes, plain
b.img: did 2 of 2, genid 0, syncid 1, flags 2, offset 0, 1536 of 2048 bytes, other
= an advance to the end | a b |
k1 label --mid 7 --did 1 gm0 a.img
k2 insert --did 2 gm0 b.img
k3 advance gm0 b.img
|
k1 ok 1
k2 ok 2
k3 ok 3 copied 3 of 3
without a refusal
gm0             COMPLETE 2/2
  a.img           ACTIVE
  b.img           ACTIVE
a.img: did 1 of 2, genid 0, syncid 1, flags 0, offset 0, 1536 of 2048 bytes, plain
b.img: did 2 of 2, genid 0, syncid 1, flags 0, offset 0, 1536 of 2048 bytes, plain
= the first of two stretches | long-a long-b |
k1 label --mid 7 --did 1 gm0 a.img
k2 insert --did 2 gm0 b.img
k3 advance gm0 b.img
|
k1 ok 1
k2 ok 2
k3 ok 3 copied 256 of 257
without a refusal
gm0             DEGRADED 1/2
  a.img           ACTIVE
  b.img           SYNCHRONIZING 256 of 257
a.img: did 1 of 2, genid 0, syncid 1, flags 0, offset 0, 131584 of 132096 bytes, plain
b.img: did 2 of 2, genid 0, syncid 1, flags 2, offset 131072, 131584 of 132096 bytes, other
= two stretches | long-a long-b |
k1 label --mid 7 --did 1 gm0 a.img
k2 insert --did 2 gm0 b.img
k3 advance gm0 b.img
k4 advance gm0 b.img
|
k1 ok 1
k2 ok 2
k3 ok 3 copied 256 of 257
k4 ok 4 copied 257 of 257
without a refusal
gm0             COMPLETE 2/2
  a.img           ACTIVE
  b.img           ACTIVE
a.img: did 1 of 2, genid 0, syncid 1, flags 0, offset 0, 131584 of 132096 bytes, plain
b.img: did 2 of 2, genid 0, syncid 1, flags 0, offset 0, 131584 of 132096 bytes, plain
= the last one in use | a b |
k1 label --mid 7 --did 1 gm0 a.img
k2 deactivate gm0 a.img
|
k1 ok 1
k2 refused 17
with a refusal
gm0             COMPLETE 1/1
  a.img           ACTIVE
a.img: did 1 of 1, genid 0, syncid 1, flags 0, offset 0, 1536 of 2048 bytes, plain
b.img: fault 1, other
= a deactivate | a b |
k1 label --mid 7 --did 1 gm0 a.img
k2 insert --did 2 gm0 b.img
k3 advance gm0 b.img
k4 deactivate gm0 b.img
|
k1 ok 1
k2 ok 2
k3 ok 3 copied 3 of 3
k4 ok 4
without a refusal
gm0             DEGRADED 1/2
  a.img           ACTIVE
  b.img           INACTIVE
a.img: did 1 of 2, genid 0, syncid 2, flags 0, offset 0, 1536 of 2048 bytes, plain
b.img: did 2 of 2, genid 0, syncid 1, flags 8, offset 0, 1536 of 2048 bytes, plain
= an activate | a b |
k1 label --mid 7 --did 1 gm0 a.img
k2 insert --did 2 gm0 b.img
k3 advance gm0 b.img
k4 deactivate gm0 b.img
k5 activate gm0 b.img
|
k1 ok 1
k2 ok 2
k3 ok 3 copied 3 of 3
k4 ok 4
k5 ok 5
without a refusal
gm0             DEGRADED 1/2
  a.img           ACTIVE
  b.img           SYNCHRONIZING 0 of 3
a.img: did 1 of 2, genid 0, syncid 2, flags 0, offset 0, 1536 of 2048 bytes, plain
b.img: did 2 of 2, genid 0, syncid 2, flags 2, offset 0, 1536 of 2048 bytes, plain
= a stale one | a b |
k1 label --mid 7 --did 1 gm0 a.img
k2 configure --autosync off gm0
k3 insert --did 2 gm0 b.img
k4 advance gm0 b.img
|
k1 ok 1
k2 ok 2
k3 ok 3
k4 refused 22
with a refusal
gm0             DEGRADED 1/2
  a.img           ACTIVE
  b.img           STALE 0 of 3
a.img: did 1 of 2, genid 0, syncid 1, flags 0, offset 0, 1536 of 2048 bytes, plain
b.img: did 2 of 2, genid 0, syncid 1, flags 2, offset 0, 1536 of 2048 bytes, other
= a rebuild | a b |
k1 label --mid 7 --did 1 gm0 a.img
k2 configure --autosync off gm0
k3 insert --did 2 gm0 b.img
k5 rebuild gm0 b.img
|
k1 ok 1
k2 ok 2
k3 ok 3
k5 ok 4
without a refusal
gm0             DEGRADED 1/2
  a.img           ACTIVE
  b.img           SYNCHRONIZING 0 of 3
a.img: did 1 of 2, genid 0, syncid 1, flags 0, offset 0, 1536 of 2048 bytes, plain
b.img: did 2 of 2, genid 0, syncid 1, flags 6, offset 0, 1536 of 2048 bytes, other
= a rebuild to its end | a b |
k1 label --mid 7 --did 1 gm0 a.img
k2 configure --autosync off gm0
k3 insert --did 2 gm0 b.img
k5 rebuild gm0 b.img
k6 advance gm0 b.img
|
k1 ok 1
k2 ok 2
k3 ok 3
k5 ok 4
k6 ok 5 copied 3 of 3
without a refusal
gm0             COMPLETE 2/2
  a.img           ACTIVE
  b.img           ACTIVE
a.img: did 1 of 2, genid 0, syncid 1, flags 0, offset 0, 1536 of 2048 bytes, plain
b.img: did 2 of 2, genid 0, syncid 1, flags 0, offset 0, 1536 of 2048 bytes, plain
= a loss | a b |
k1 label --mid 7 --did 1 gm0 a.img
k2 insert --did 2 gm0 b.img
k3 advance gm0 b.img
k4 lost gm0 b.img
|
k1 ok 1
k2 ok 2
k3 ok 3 copied 3 of 3
k4 ok 4
without a refusal
gm0             DEGRADED 1/2
  a.img           ACTIVE
a.img: did 1 of 2, genid 1, syncid 1, flags 0, offset 0, 1536 of 2048 bytes, plain
b.img: did 2 of 2, genid 0, syncid 1, flags 0, offset 0, 1536 of 2048 bytes, plain
= a loss that is forgotten | a b taste |
k1 label --mid 7 --did 1 gm0 a.img
k2 insert --did 2 gm0 b.img
k3 advance gm0 b.img
k4 lost gm0 b.img
k5 remove gm0 a.img
k5 forget gm0
k6 forget gm0
k6 remove gm0 a.img
|
k1 ok 1
k2 ok 2
k3 ok 3 copied 3 of 3
k4 ok 4
k5 refused 16
k5 ok 5
k6 refused 20
k6 refused 17
with a refusal
gm0             COMPLETE 1/1
  a.img           ACTIVE
a.img: did 1 of 1, genid 1, syncid 1, flags 0, offset 0, 1536 of 2048 bytes, plain
b.img: did 2 of 2, genid 0, syncid 1, flags 0, offset 0, 1536 of 2048 bytes, plain
gm0             mid 7 genid 1 syncid 1
  a.img           ACTIVE
  b.img           BROKEN
  source: a.img
= a lost one that is cleared | a b d |
k1 label --mid 7 --did 1 gm0 a.img
k2 insert --did 2 gm0 b.img
k3 advance gm0 b.img
k4 lost gm0 b.img
k5 remove gm0 a.img
k5 forget gm0
k7 insert --did 2 gm0 b.img
k7 clear b.img
k8 insert --did 2 gm0 b.img
k9 clear d.img
|
k1 ok 1
k2 ok 2
k3 ok 3 copied 3 of 3
k4 ok 4
k5 refused 16
k5 ok 5
k7 refused 10
k7 ok 6
k8 ok 7
k9 refused 29
with a refusal
gm0             DEGRADED 1/2
  a.img           ACTIVE
  b.img           SYNCHRONIZING 0 of 3
a.img: did 1 of 2, genid 1, syncid 1, flags 0, offset 0, 1536 of 2048 bytes, plain
b.img: did 2 of 2, genid 1, syncid 1, flags 2, offset 0, 1536 of 2048 bytes, plain
d.img: fault 1, other
= no line | a b |
|
without a refusal
no mirrors
a.img: fault 1, plain
b.img: fault 1, other
= lines that are no commands | a b |
k/1 forget gm0
k1
k/1
xxxxxxxxxxxxxxxxxxxxxxxxxxxxxxxxxxxxxxxxxxxxxxxxxxxxxxxxxxxxxxxxxxxxxxxxxxxxxxxxxxxxxxxxxx\
xxxxxxxxxxxxxxxxxxxxxxxxxxxxxxxxxxxxxxxxxxxxxxxxxxxxxxxxxxxxxxxxxxxxxxxxxxxxxxxxxxxxxxxxxx\
xxxxxxxxxxxxxxxxxxxxxxxxxxxxxxxxxxxxxxxxxxxxxxxxxxxxxxxxxxxxxxxxxxxxxxxxxxxxxxxxxxxxxxxxxx\
xxxxxxxxxxxxxxxxxxxxxxxxxxxxxxxxxxxxxxxxxxxxxxxxxxxxxxxxxxxxxxxxxxxxxxxxxxxxxxxxxxxxxxxxxx\
xxxxxxxxxxxxxxxxxxxxxxxxxxxxxxxxxxxxxxxxxxxxxxxxxxxxxxxxxxxxxxxxxxxxxxxxxxxxxxxxxxxxxxxxxx\
xxxxxxxxxxxxxxxxxxxxxxxxxxxxxxxxxxxxxxxxxxxxxxxxxxxxxxxxxxxxxxxxxxxxxxxxxxxxxxxxxxxxxxxxxx\
xxxxxxxxxxxxxxxxxxxxxxxxxxxxxxxxxxxxxxxxxxxxxxxxxxxxxxxxxxxxxxxxxxxxxxxxxxxxxxxxxxxxxxxxxx\
xxxxxxxxxxxxxxxxxxxxxxxxxxxxxxxxxxxxxxxxxxxxxxxxxxxxxxxxxxxxxxxxxxxxxxxxxxxxxxxxxxxxxxxxxx\
xxxxxxxxxxxxxxxxxxxxxxxxxxxxxxxxxxxxxxxxxxxxxxxxxxxxxxxxxxxxxxxxxxxxxxxxxxxxxxxxxxxxxxxxxx\
xxxxxxxxxxxxxxxxxxxxxxxxxxxxxxxxxxxxxxxxxxxxxxxxxxxxxxxxxxxxxxxxxxxxxxxxxxxxxxxxxxxxxxxxxx\
xxxxxxxxxxxxxxxxxxxxxxxxxxxxxxxxxxxxxxxxxxxxxxxxxxxxxxxxxxxxxxxxxxxxxxxxxxxxxxxxxxxxxxxxxx\
xxxxxxxxxxxxxxxxxxxxxxxxxxxxxxxxxxx
|
? refused 2
k1 refused 1
? refused 1
? refused 1
with a refusal
no mirrors
a.img: fault 1, plain
b.img: fault 1, other
= an adoption of equal images at the last count of syncs | last-a last-b |
k1 adopt gm0 a.img b.img
k2 deactivate gm0 b.img
|
k1 ok 1
k2 refused 23
with a refusal
gm0             COMPLETE 2/2
  a.img           ACTIVE
  b.img           ACTIVE
a.img: did 1 of 2, genid 0, syncid 4294967295, flags 0, offset 0, 1536 of 2048 bytes, plain
b.img: did 2 of 2, genid 0, syncid 4294967295, flags 0, offset 0, 1536 of 2048 bytes, plain
= an adoption of unequal images | claiming-a unequal-b |
k1 adopt gm0 a.img b.img
k2 adopt gm0 a.img
|
k1 ok 1
k2 refused 6
with a refusal
gm0             DEGRADED 1/2
  a.img           ACTIVE
  b.img           SYNCHRONIZING 0 of 3
a.img: did 1 of 2, genid 0, syncid 1, flags 0, offset 0, 1536 of 2048 bytes, plain
b.img: did 2 of 2, genid 0, syncid 1, flags 2, offset 0, 1536 of 2048 bytes, other
= an adoption without the lost one | left-a lost-b |
k1 adopt gm0 a.img
|
k1 ok 1
without a refusal
gm0             DEGRADED 1/2
  a.img           ACTIVE
a.img: did 1 of 2, genid 1, syncid 1, flags 0, offset 0, 1536 of 2048 bytes, plain
b.img: did 2 of 2, genid 0, syncid 1, flags 0, offset 0, 1536 of 2048 bytes, plain
= an adoption with the lost one | left-a lost-b |
k1 adopt gm0 a.img b.img
|
k1 refused 26
with a refusal
no mirrors
a.img: did 1 of 2, genid 1, syncid 1, flags 0, offset 0, 1536 of 2048 bytes, plain
b.img: did 2 of 2, genid 0, syncid 1, flags 0, offset 0, 1536 of 2048 bytes, plain
= an adoption of one image twice | left-a lost-b |
k1 adopt gm0 a.img a.img
|
k1 refused 13
with a refusal
no mirrors
a.img: did 1 of 2, genid 1, syncid 1, flags 0, offset 0, 1536 of 2048 bytes, plain
b.img: did 2 of 2, genid 0, syncid 1, flags 0, offset 0, 1536 of 2048 bytes, plain
= an adoption of a label of version 2 | second-alone |
k1 adopt gm0 a.img
|
k1 ok 1
without a refusal
gm0             COMPLETE 1/1
  a.img           ACTIVE
a.img: did 1 of 1, genid 0, syncid 1, flags 0, offset 0, 1536 of 2048 bytes, plain
= an adoption of versions 2 and 4 | second-a claiming-b |
k1 adopt gm0 a.img b.img
|
k1 ok 1
without a refusal
gm0             COMPLETE 2/2
  a.img           ACTIVE
  b.img           ACTIVE
a.img: did 1 of 2, genid 0, syncid 1, flags 0, offset 0, 1536 of 2048 bytes, plain
b.img: did 2 of 2, genid 0, syncid 1, flags 0, offset 0, 1536 of 2048 bytes, plain
= what versions 2 and 3 tell, and one of them is adopted | second-a third-b taste |
k1 adopt gm1 a.img
k2 adopt gm0 b.img
|
k1 refused 26
k2 ok 1
with a refusal
gm0             DEGRADED 1/2
  b.img           ACTIVE
a.img: did 1 of 2, genid 0, syncid 1, flags 0, offset 0, 1536 of 0 bytes, version 2, plain
b.img: did 2 of 2, genid 0, syncid 1, flags 0, offset 0, 1536 of 2048 bytes, other
gm0             mid 7 genid 0 syncid 1
  a.img           ACTIVE
  b.img           ACTIVE
  source: a.img
";
